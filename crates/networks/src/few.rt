//! None, one or two of a kind.

/// None, one or two of a kind, in order: the branches that a statement uses or makes, or their
/// names.
#[derive(Clone, Copy, Debug, PartialEq, Eq)]
pub enum AtMostTwo<T> {
    Nothing,
    One(T),
    Two(T, T),
}
