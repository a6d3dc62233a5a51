//! Laws of valuations.

ghost use Rattle.std.specs.Prelude.{◌≡◌, ◌↔◌, ◌≤◌, ◌+◌, ◌++◌, ℕ, length, map, slice_get};
ghost use Rattle.stream_case.specs.Case.{IsComplete};
ghost use Rattle.stream_case.specs.declared.case.Case.{Case};
ghost use Rattle.networks.specs.Shape.{HasShape};
ghost use Rattle.networks.specs.declared.network.Line.{Line};
ghost use Rattle.networks.specs.declared.network.Network.{Network};
ghost use Rattle.network_values.specs.Made.{LeaveRoom, LeavesRoom, front, made_values};
ghost use Rattle.network_values.specs.Values.{IsValuation, LoadsAreKept, Valuation, first_value};

/// The first lines of a network have at most one valuation.
pub fn valuations_agree()
    ensures { (case : Case) (network : Network) (n : ℕ) (values other : Valuation)
        → HasShape case network → IsValuation case network n values
        → IsValuation case network n other → values ≡ other }
{}

/// Valuations go line by line: before the first line each stream's branch carries the whole stream
/// in its first state, and each line makes what the schoolbook says of the values before it.
pub fn valuations_go_line_by_line()
    ensures start { (case : Case) (network : Network) → IsComplete case
        → IsValuation case network 0 (map first_value case.streams) }
    ensures next { (case : Case) (network : Network) (n : ℕ) (l : Line) (values : Valuation)
        → HasShape case network → slice_get network.lines n ≡ Some l
        → IsValuation case network n values → LeavesRoom values l
        → IsValuation case network (n + 1) (values ++ made_values case network values l) }
    ensures before { (case : Case) (network : Network) (n : ℕ) (values : Valuation)
        → HasShape case network → IsValuation case network (n + 1) values
        → IsValuation case network n (front case network n values) }
    ensures room { (case : Case) (network : Network) (n : ℕ) (l : Line) (values : Valuation)
        → HasShape case network → slice_get network.lines n ≡ Some l
        → IsValuation case network (n + 1) values → LeavesRoom (front case network n values) l }
{}

/// The first lines of a network have a valuation exactly where no split of them takes as much as its
/// branch carries, or more.
pub fn valuations_exist_where_splits_leave_room()
    ensures { (case : Case) (network : Network) (n : ℕ) → IsComplete case
        → HasShape case network → n ≤ length network.lines
        → ((values : Valuation) × IsValuation case network n values)
        ↔ LeaveRoom case network n }
{}

/// Where no pass brings the state of a latent branch below 0 or above 1, no branch has such a state.
pub fn loads_are_kept()
    ensures { LoadsAreKept }
{}
