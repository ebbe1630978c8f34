//! The laws of rehearsals. Each holds for every script; the functions do nothing.

ghost use Rattle.bhs_theorems_isolation.specs.OneMachine.{ArrivalsAreNews, ClosesEndTheWait, HeardFirst};
ghost use Rattle.bhs_theorems_isolation.specs.OneMachine.{ItemsAreTakenByTheMachine};
ghost use Rattle.bhs_theorems_isolation.specs.ScriptLaws.{AllItemsAreTaken, ClientsKeepToThemselves, CutsDoAlike};
ghost use Rattle.bhs_theorems_isolation.specs.ScriptLaws.{HoleSoundsSlow};
ghost use Rattle.bhs_theorems_isolation.specs.ScriptLaws.{LinksCanBeHeld, MatchesAreHeardApart};
ghost use Rattle.bhs_theorems_isolation.specs.ScriptLaws.{MatchesKeepToThemselves};
ghost use Rattle.bhs_theorems_isolation.specs.ScriptLaws.{OtherMatchesAreNotHeard, ScriptsSettle};
ghost use Rattle.bhs_theorems_isolation.specs.ScriptLaws.{SettledConnectionsRest};
ghost use Rattle.bhs_theorems_isolation.specs.ScriptLaws.{SettledStagesSettle, SlowLineupsSoundAlike, SlowMatchesBegin};
ghost use Rattle.bhs_theorems_isolation.specs.ScriptLaws.{ScriptsGrow, TwoPiecesDoAlike};
ghost use Rattle.bhs_theorems_isolation.specs.ScriptExamples.{AFirstLookIsDenied, AKeyLetsIn, ALineMayComeInPieces};
ghost use Rattle.bhs_theorems_isolation.specs.ScriptExamples.{AStrangeKeyIsDenied, AUsedKeyIsDenied};
ghost use Rattle.bhs_theorems_isolation.specs.ScriptExamples.{AnEndWaitsForTheArrival};
ghost use Rattle.bhs_theorems_isolation.specs.ScriptExamples.{HeldLinksSendTheSame, LinesWaitForTheArrival};
ghost use Rattle.bhs_theorems_isolation.specs.ScriptExamples.{TheAgentOfAnEndLeaves};
ghost use Rattle.bhs_theorems_isolation.specs.ScriptExamples.{TheBlackHoleIsSilent, TheOtherMatchIsNotHeard};
ghost use Rattle.bhs_theorems_isolation.specs.ScriptExamples.{ThePresentAreToldLater, TheQuotaIsSpent};
ghost use Rattle.bhs_theorems_isolation.specs.ScriptExamples.{TheSecondWriterSeesTheFirst, TheSlowTriangleIsSlow};
ghost use Rattle.bhs_theorems_isolation.specs.ScriptExamples.{WhatIsNotThereDoesNothing};

/// One more instruction at the end of a script leads from the script's stage to the next, and sends what it sends
/// there.
pub fn scripts_grow()
    ensures { ScriptsGrow }
{}

/// What scripts send on a triangle, worked out by hand.
pub fn worked_scripts()
    ensures a_key_lets_in { AKeyLetsIn }
    ensures a_line_may_come_in_pieces { ALineMayComeInPieces }
    ensures the_black_hole_is_silent { TheBlackHoleIsSilent }
    ensures held_links_send_the_same { HeldLinksSendTheSame }
    ensures the_slow_triangle_is_slow { TheSlowTriangleIsSlow }
    ensures lines_wait_for_the_arrival { LinesWaitForTheArrival }
    ensures the_second_writer_sees_the_first { TheSecondWriterSeesTheFirst }
    ensures the_quota_is_spent { TheQuotaIsSpent }
    ensures a_strange_key_is_denied { AStrangeKeyIsDenied }
    ensures a_used_key_is_denied { AUsedKeyIsDenied }
    ensures a_first_look_is_denied { AFirstLookIsDenied }
    ensures the_present_are_told_later { ThePresentAreToldLater }
    ensures an_end_waits_for_the_arrival { AnEndWaitsForTheArrival }
    ensures the_agent_of_an_end_leaves { TheAgentOfAnEndLeaves }
    ensures the_other_match_is_not_heard { TheOtherMatchIsNotHeard }
    ensures what_is_not_there_does_nothing { WhatIsNotThereDoesNothing }
{}

/// A client's bytes may come in two pieces as well: the stage and what is sent are the same.
pub fn two_pieces_do_alike()
    ensures { TwoPiecesDoAlike }
{}

/// How a script cuts a connection's input into pieces makes no difference: the stage afterwards and the output to each
/// connection are the same.
pub fn cuts_do_alike()
    ensures { CutsDoAlike }
{}

/// What a client sends, and the end of its input, changes no other connection and no match but its own, and is answered
/// to nobody else.
pub fn clients_keep_to_themselves()
    ensures { ClientsKeepToThemselves }
{}

/// A draw or a close changes no other match and no connection that plays elsewhere, and those are sent nothing.
pub fn matches_keep_to_themselves()
    ensures { MatchesKeepToThemselves }
{}

/// Each connection acts as a session does. Its items are taken by the machine of a session, and it waits where its
/// phase awaits news: exactly if its agent is on a link.
pub fn acts_as_a_session()
    ensures first { HeardFirst }
    ensures items { ItemsAreTakenByTheMachine }
    ensures arrivals { ArrivalsAreNews }
    ensures closes { ClosesEndTheWait }
{}

/// After each instruction every connection has taken what it can: if items are left, its agent is on a link.
pub fn stages_settle()
    ensures step { SettledStagesSettle }
    ensures script { ScriptsSettle }
    ensures rest { SettledConnectionsRest }
    ensures all_taken { AllItemsAreTaken }
{}

/// Who doesn't play in a match is sent the same, whatever that match is and however it stands, and whatever is said and
/// done in it.
pub fn matches_are_apart()
    ensures worlds { MatchesAreHeardApart }
    ensures scripts { OtherMatchesAreNotHeard }
{}

/// No client can tell black holes and dark links from links that are slow: for every script the bytes are the same,
/// instruction by instruction.
pub fn hole_sounds_slow()
    ensures sounds { HoleSoundsSlow }
    ensures begins { SlowMatchesBegin }
    ensures lineups { SlowLineupsSoundAlike }
    ensures held { LinksCanBeHeld }
{}
