//! Laws of the grammar.

ghost use Rattle.network_text.specs.Laws.{FaultsAreOne, FaultsGiveNoNetwork, GivenNetworksHaveTheShape, GivenNetworksKeepTheCounts, NetworksAreOne};

/// Statements have one outcome: never two faults, two causes of one fault, two networks, or a fault
/// and a network.
pub fn statements_have_one_outcome()
    ensures fault { FaultsAreOne }
    ensures apart { FaultsGiveNoNetwork }
    ensures network { NetworksAreOne }
{}

/// A network that the grammar gives for a completed case has the shape, and keeps the two counts.
pub fn networks_have_the_shape()
    ensures shape { GivenNetworksHaveTheShape }
    ensures counts { GivenNetworksKeepTheCounts }
{}
