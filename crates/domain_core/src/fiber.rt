//! A fiber that hasn't ended, as its domain keeps it.

use crate::standing::{Role, Standing};
use fiber_step::Fiber as Frames;

/// A fiber. What changes with each move stands here; its frames and its variables lie apart.
#[derive(Drop)]
pub struct Fiber {
    pub number: u32,
    /// The context that it runs in.
    pub context: u32,
    pub role: Role,
    pub standing: Standing,
    pub frames: Frames,
}
