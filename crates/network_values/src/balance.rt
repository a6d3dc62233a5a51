//! What follows for a whole network: its ends, the balance of weights, and its penalties.

ghost use Rattle.network_values.specs.Penalties.{DeficitsAreMet, PenaltiesAddUp, PenaltiesAreNotNegative, PenaltiesAreTheExcess, StreamsGiveTheirHeat, TargetsAreMet};
ghost use Rattle.network_values.specs.Weights.{StreamsEndOnce, WeightsBalance};

/// Where each end has the full size of its stream in its last state, and each stream has an end, no
/// stream ends twice, and no branch is left over.
pub fn streams_end_once()
    ensures { StreamsEndOnce }
{}

/// For any weight of branches that is additive in size: what the streams weigh less at their ends
/// than at their beginnings is what the passes and the mixes take.
pub fn weights_balance()
    ensures { WeightsBalance }
{}

/// In each view, above a place or from the place itself, a stream loses as much height from its
/// first state to its last as it gives heat away in that view, in W; a cold stream takes it.
pub fn streams_give_their_heat()
    ensures { StreamsGiveTheirHeat }
{}

/// In each view the penalties of the exchangers and of the mixes add up to the heat of the hot
/// utilities less the deficit in that view, all in W.
pub fn penalties_add_up()
    ensures { PenaltiesAddUp }
{}

/// In the view from the reference place they add up to the excess: the heat of the hot utilities
/// less the hot target.
pub fn penalties_are_the_excess()
    ensures { PenaltiesAreTheExcess }
{}

/// Where all approaches are kept, no exchanger and no mix has a penalty below 0, in any view.
pub fn penalties_are_not_negative()
    ensures { PenaltiesAreNotNegative }
{}

/// So the hot utilities give at least the deficit in any view.
pub fn deficits_are_met()
    ensures { DeficitsAreMet }
{}

/// And they give at least the hot target: no network that keeps all approaches beats it, whatever
/// it splits, overheats and mixes.
pub fn targets_are_met()
    ensures { TargetsAreMet }
{}
