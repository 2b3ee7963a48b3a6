//! A place between two steps of a pass, where a caller may hold it up.

/// What a pass calls before it gives a task back. It promises nothing.
pub trait Gate: Sync {
    /// `turn` is the number of tasks that the pass has taken, this one included. It stays at the
    /// greatest u64.
    fn before_give(&self, turn: u64);
}

impl<G: Gate> Gate for &G {
    fn before_give(&self, turn: u64) {
        (**self).before_give(turn);
    }
}

/// The gate that does nothing.
#[derive(Clone, Copy, Debug, PartialEq, Eq)]
pub struct OpenGate;

impl Gate for OpenGate {
    fn before_give(&self, _turn: u64) {}
}
