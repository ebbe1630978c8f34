//! Laws of the definitions alone.

ghost use Rattle.bhs_net.specs.Laws.{NoNetworkWithFault, OneNetwork};

/// Links that have a fault make no network: so a list is refused with a fault only if it makes none.
pub fn no_network_with_fault()
    ensures { NoNetworkWithFault }
{}

/// Links make one network at the most: so two networks made of one list are equal.
pub fn one_network()
    ensures { OneNetwork }
{}
