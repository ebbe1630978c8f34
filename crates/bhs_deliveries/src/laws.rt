//! Laws of the words and of the draws.

ghost use Rattle.bhs_deliveries.specs.Examples.{
  ADeliveryIsOfItsAgent,
  ALinkIsHeldInOneDirection,
  EachAgentHasItsOwnStream,
  NobodyIsDrawnAfterTheClose,
  TheFirstStrangePairIsTold,
  WhoIsHeldStays,
  WordsDrawFromThePool,
};
ghost use Rattle.bhs_deliveries.specs.Drawing.{DrawsAreThoseOfTheModel};
ghost use Rattle.bhs_deliveries.specs.Delaying.{DelaysHaveTheirOwnStreams, TurnsFollowTheirSchedule};
ghost use Rattle.bhs_deliveries.specs.Dealer.{GivesTheWordAtItsPlace, GivesItsStreamInOrder, AreTheWordsOfChaCha8};

/// A dealer gives the word at its place, and then stands at the next place.
pub fn gives_the_word_at_its_place()
    ensures { GivesTheWordAtItsPlace }
{}

/// A dealer gives the words of its stream in order, one a call: a new one those at places 0, 1, 2, ..
pub fn gives_its_stream_in_order()
    ensures { GivesItsStreamInOrder }
{}

/// Known answers: these words of ChaCha8 were computed by an independent implementation.
pub fn words_are_those_of_chacha8()
    ensures { AreTheWordsOfChaCha8 }
{}

/// A draw delivers an agent exactly if the draw of the definitions is that agent's delivery.
pub fn draws_are_those_of_the_model()
    ensures { DrawsAreThoseOfTheModel }
{}

/// Each stream of delays differs from every match's stream and from other streams of delays.
pub fn delays_have_their_own_streams()
    ensures { DelaysHaveTheirOwnStreams }
{}

/// A dealer that has given one word a turn makes each turn deliver as the schedule of its match does.
pub fn turns_follow_their_schedule()
    ensures { TurnsFollowTheirSchedule }
{}

/// What the definitions give on a triangle, worked out by hand.
pub fn worked_draws()
    ensures the_first_strange_pair_is_told { TheFirstStrangePairIsTold }
    ensures a_link_is_held_in_one_direction { ALinkIsHeldInOneDirection }
    ensures words_draw_from_the_pool { WordsDrawFromThePool }
    ensures who_is_held_stays { WhoIsHeldStays }
    ensures nobody_is_drawn_after_the_close { NobodyIsDrawnAfterTheClose }
    ensures a_delivery_is_of_its_agent { ADeliveryIsOfItsAgent }
    ensures each_agent_has_its_own_stream { EachAgentHasItsOwnStream }
{}
