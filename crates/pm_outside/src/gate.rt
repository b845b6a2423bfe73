//! What a worker passes between its events.

/// A gate, which each worker passes after each event of its own that changed the task book of a
/// level: when it has released the book's lock. A gate has no meaning: what the workers find
/// doesn't depend on it. That of a test may wait, and so set the order in which workers go on.
pub trait Gate {
    /// The worker of this number passes. `event` says what it did to the book:
    ///
    /// | `event` | The worker |
    /// |---|---|
    /// | 1 | took the first queued row |
    /// | 2 | claimed a row by its number |
    /// | 3 | split its row |
    /// | 4 | returned its row |
    /// | 5 | closed its row |
    /// | 6 | found a path in its row |
    fn pass(&self, worker: u16, event: u8);
}

/// A gate that does nothing.
#[derive(Drop)]
pub struct OpenGate;

impl Gate for OpenGate {
    fn pass(&self, _worker: u16, _event: u8) {}
}
