//! Laws of the model, over its definitions alone. Each holds for every world and every list of events; the
//! functions do nothing.

ghost use Rattle.bhs_world.specs.Laws.{AwayAlike, EqualSetsAreOneSetup, NormalFormsDestroyAlike};

/// A lost agent and an agent in transit are answered alike, whatever they say.
pub fn away_alike()
    ensures { AwayAlike }
{}

/// Setups of equal sets of black holes and of dark links have one normal form, however they list them.
pub fn equal_sets_are_one_setup()
    ensures { EqualSetsAreOneSetup }
{}

/// The normal form of a setup within the limits destroys on the same links.
pub fn normal_forms_destroy_alike()
    ensures { NormalFormsDestroyAlike }
{}
