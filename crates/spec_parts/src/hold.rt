//! What a mutex is at a time.

/// Whether a mutex is locked, or can never be locked again.
#[derive(Clone, Copy)]
pub enum Hold {
    Free,
    Held,
    /// An exception left a block that had it locked.
    Poisoned,
}
