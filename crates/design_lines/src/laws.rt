//! Laws of drawn networks.

ghost use Rattle.std.specs.Prelude.{List};
ghost use Rattle.stream_case.specs.Case.{IsComplete};
ghost use Rattle.stream_case.specs.declared.case.Case.{Case};
ghost use Rattle.networks.specs.Lines.{Exchanger};
ghost use Rattle.networks.specs.Shape.{HasShape};
ghost use Rattle.design_lines.specs.Drawn.{Course, drawn};
ghost use Rattle.design_lines.specs.Led.{AreLed};

/// The network that led courses draw has the shape of a network: each branch is made in order,
/// before its one use, and has a name and a stream, and each side of an exchanger that is a stream
/// is passed once.
pub fn drawn_networks_have_the_shape()
    ensures { (case : Case) (exchangers : List Exchanger) (courses : List Course)
        → IsComplete case
        → AreLed case exchangers courses → HasShape case (drawn case exchangers courses) }
{}
