//! What a scripted flow does next.

use crate::{Bytes, TextId};

/// One step of a scripted flow, which one read spends.
#[derive(Drop)]
pub enum FlowStep {
    /// The read gives these bytes.
    Data(Bytes),
    /// The read raises a failure with this text.
    Fault(TextId),
    /// The read gives nothing yet; the fiber goes to the back of the ready list.
    Pause,
}
