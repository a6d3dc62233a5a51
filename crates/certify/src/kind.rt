//! The kinds of statements.

ghost use Rattle.std.specs.Prelude.{◌≡◌};
ghost use Rattle.certify.specs.Given.{cut_kind_in, field_count, kind_in};

use heat_flow::CutKind;

/// What a statement says.
#[derive(Clone, Copy)]
pub enum Kind {
    Cost,
    Use,
    Move,
    Give,
    Take,
    Infeasible,
    Cut,
    Part,
}

impl Kind {
    /// How many fields a statement of this kind has.
    pub fn field_count(self) -> usize
        ensures { result ≡ field_count self }
    {
        match self {
            Kind::Cost => 2,
            Kind::Use => 3,
            Kind::Move => 8,
            Kind::Give | Kind::Take => 5,
            Kind::Infeasible => 1,
            Kind::Cut | Kind::Part => 4,
        }
    }
}

/// The kind that the first field of a statement names.
pub fn kind_of(word: &[u8]) -> Option<Kind>
    ensures { result ≡ kind_in word.now }
{
    if word == b"cost".as_slice() {
        Some(Kind::Cost)
    } else if word == b"use".as_slice() {
        Some(Kind::Use)
    } else if word == b"move".as_slice() {
        Some(Kind::Move)
    } else if word == b"give".as_slice() {
        Some(Kind::Give)
    } else if word == b"take".as_slice() {
        Some(Kind::Take)
    } else if word == b"infeasible".as_slice() {
        Some(Kind::Infeasible)
    } else if word == b"cut".as_slice() {
        Some(Kind::Cut)
    } else if word == b"part".as_slice() {
        Some(Kind::Part)
    } else {
        None
    }
}

/// The kind of cut that a field names.
pub fn cut_kind_of(word: &[u8]) -> Option<CutKind>
    ensures { result ≡ cut_kind_in word.now }
{
    if word == b"demand".as_slice() {
        Some(CutKind::Demand)
    } else if word == b"supply".as_slice() {
        Some(CutKind::Supply)
    } else {
        None
    }
}
