//! A point of a curve.

/// A point of a curve: a heat in watts and a temperature in tenths of °C.
#[derive(Clone, Copy, Debug, PartialEq, Eq, Hash)]
pub struct Point {
    pub heat: i64,
    pub temperature: i32,
}
