//! The laws behind the floor.

ghost use Rattle.price_floor.specs.Floor.{NoCutStands, NoNetworkCostsLess};
ghost use Rattle.price_floor.specs.Uses.{UsesAreOrdered};
ghost use Rattle.price_floor.specs.Worths.{WorthsAreOrdered};

/// At step prices that are nowhere higher for a cold source than for a hot one that may heat it,
/// what the streams of a network lose of their worth, and what its hot utilities give, is worth at
/// least what its cold utilities take.
pub fn worths_are_ordered()
    ensures { WorthsAreOrdered }
{}

/// At prices that support the heat flows of a case, what a valid network takes is worth no more
/// than what it gives.
pub fn uses_are_ordered()
    ensures { UsesAreOrdered }
{}

/// So a valid network costs at least the value of these prices.
pub fn no_network_costs_less()
    ensures { NoNetworkCostsLess }
{}

/// And there is no cut of the case, so that it has a heat flow.
pub fn no_cut_stands()
    ensures { NoCutStands }
{}
