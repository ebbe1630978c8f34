//! The laws of the model. Each holds for every world and every list of events; the functions do nothing.

ghost use Rattle.bhs_model.specs.Examples.{
  ABadLineIsUsedUp,
  ADepartureAndItsArrival,
  AFailedWriteIsInTheCut,
  AFailedWriteCounts,
  AMatchSeesNoOther,
  AMissingPortIsUsedUp,
  ASightNeedsTheWrite,
  AStepNeedsTheStepsBefore,
  AWhiteboardHoldsSoManyBytes,
  AWhiteboardNamesItsWrite,
  AWriteExpectsWhatItReplaces,
  AnAccusationIsNoted,
  AnAgentEnters,
  AnArrivalGivesItAway,
  AnArrivalShowsTheLabelThere,
  ADarkLinkIsSilent,
  ADarkLinkLooksHeld,
  AnUnreachedNodeMayBeTheHole,
  EachMatchHasItsOwnEvents,
  HeldLinksLookAlike,
  LeavingNeedsNoQuota,
  LeavingOnTheWay,
  OnALinkAllButLeaveIsAway,
  QuotasAreApart,
  RefusalsInOrder,
  TheBlackHoleIsSilent,
  TheCutStandsAlone,
  TheDestroyedLeaveAlike,
  TheDestroyedStayInThePool,
  WhatIsKept,
  WhoIsLost,
  WhoLeavesLeavesThePool,
  WhoNeverMeetsIsNotInTheCut,
  WhoWroteWhatIsSeenIsInTheCut,
  WordsPickFromThePool,
};
ghost use Rattle.bhs_model.specs.Laws.{
  AmongMatches,
  ClosedMeans,
  ClosedSetsStandAlone,
  CutsAreLeast,
  CutsSuffice,
  EqualPasts,
  EventsAdd,
  HasSlowTwin,
  HoleLooksSlow,
  KeptSuffice,
  MatchesAreApart,
  PastsFitPositions,
  RepliesAreOfPasts,
  TwinsLookAlike,
};

/// Agents with equal pasts are answered alike, whatever else differs: the network, the other agents,
/// black holes and dark links.
pub fn equal_pasts()
    ensures { EqualPasts }
{}

/// The replies to an agent until the match ends are a function of its past.
pub fn replies_are_of_pasts()
    ensures alone { RepliesAreOfPasts }
    ensures among_matches { AmongMatches }
{}

/// What one event more adds to a list of events.
pub fn events_add()
    ensures { EventsAdd }
{}

/// What a match doesn't keep in its log changes nothing, and each kept event was answered what the kept events alone
/// give at its place.
pub fn kept_suffice()
    ensures { KeptSuffice }
{}

/// Twin matches, whose worlds differ in what destroys, give each agent equal pasts and equal replies.
pub fn twins_look_alike()
    ensures { TwinsLookAlike }
{}

/// The events of a closed set of places are answered by themselves as they are among all events.
pub fn closed_sets_stand_alone()
    ensures { ClosedSetsStandAlone }
{}

/// What it means that a set of places is closed.
pub fn closed_means()
    ensures { ClosedMeans }
{}

/// The cut of an agent is the least closed set of places that has all places of the agent.
pub fn cuts_are_least()
    ensures { CutsAreLeast }
{}

/// The events in the cut of an agent suffice for its past, its position and its answers.
pub fn cuts_suffice()
    ensures { CutsSuffice }
{}

/// No agent can tell black holes and dark links from links that are slow.
pub fn hole_looks_slow()
    ensures looks { HoleLooksSlow }
    ensures there_is_one { HasSlowTwin }
{}

/// Non-interference: a match of an arena behaves as it does alone.
pub fn matches_are_apart()
    ensures { MatchesAreApart }
{}

/// The past of an agent says what it is doing and how many ports its node has.
pub fn pasts_fit_positions()
    ensures { PastsFitPositions }
{}

/// What the definitions give on a triangle, worked out by hand.
pub fn worked_examples()
    ensures an_agent_enters { AnAgentEnters }
    ensures a_departure_and_its_arrival { ADepartureAndItsArrival }
    ensures the_black_hole_is_silent { TheBlackHoleIsSilent }
    ensures on_a_link_all_but_leave_is_away { OnALinkAllButLeaveIsAway }
    ensures held_links_look_alike { HeldLinksLookAlike }
    ensures a_dark_link_is_silent { ADarkLinkIsSilent }
    ensures a_dark_link_looks_held { ADarkLinkLooksHeld }
    ensures an_accusation_is_noted { AnAccusationIsNoted }
    ensures a_write_expects_what_it_replaces { AWriteExpectsWhatItReplaces }
    ensures a_whiteboard_names_its_write { AWhiteboardNamesItsWrite }
    ensures a_whiteboard_holds_so_many_bytes { AWhiteboardHoldsSoManyBytes }
    ensures a_missing_port_is_used_up { AMissingPortIsUsedUp }
    ensures leaving_needs_no_quota { LeavingNeedsNoQuota }
    ensures a_bad_line_is_used_up { ABadLineIsUsedUp }
    ensures quotas_are_apart { QuotasAreApart }
    ensures words_pick_from_the_pool { WordsPickFromThePool }
    ensures the_destroyed_stay_in_the_pool { TheDestroyedStayInThePool }
    ensures who_never_meets_is_not_in_the_cut { WhoNeverMeetsIsNotInTheCut }
    ensures who_wrote_what_is_seen_is_in_the_cut { WhoWroteWhatIsSeenIsInTheCut }
    ensures a_failed_write_counts { AFailedWriteCounts }
    ensures a_failed_write_is_in_the_cut { AFailedWriteIsInTheCut }
    ensures the_cut_stands_alone { TheCutStandsAlone }
    ensures a_step_needs_the_steps_before { AStepNeedsTheStepsBefore }
    ensures a_sight_needs_the_write { ASightNeedsTheWrite }
    ensures an_arrival_shows_the_label_there { AnArrivalShowsTheLabelThere }
    ensures leaving_on_the_way { LeavingOnTheWay }
    ensures the_destroyed_leave_alike { TheDestroyedLeaveAlike }
    ensures who_leaves_leaves_the_pool { WhoLeavesLeavesThePool }
    ensures what_is_kept { WhatIsKept }
    ensures who_is_lost { WhoIsLost }
    ensures an_unreached_node_may_be_the_hole { AnUnreachedNodeMayBeTheHole }
    ensures an_arrival_gives_it_away { AnArrivalGivesItAway }
    ensures refusals_in_order { RefusalsInOrder }
    ensures each_match_has_its_own_events { EachMatchHasItsOwnEvents }
    ensures a_match_sees_no_other { AMatchSeesNoOther }
{}
