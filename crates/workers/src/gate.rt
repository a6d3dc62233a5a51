//! Gates that workers pass.

/// What each worker passes before and behind an item, by which an observer sees that workers work
/// side by side. It is told the number of the item, from 0, and has no influence on any answer.
pub trait Gate {
    /// Before the work for an item.
    fn enter(&self, number: u32);

    /// Behind the work for an item.
    fn leave(&self, number: u32);
}

/// A gate that does nothing.
#[derive(Clone, Copy, Debug)]
pub struct OpenGate;

impl Gate for OpenGate {
    fn enter(&self, _number: u32) {}

    fn leave(&self, _number: u32) {}
}
