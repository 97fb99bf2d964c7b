//! What a script declares.

ghost use Rattle.std.specs.Prelude.{◌≡◌};

use crate::node::Numbers;
use eio_value::{Entries, FlowStep};
use std::marker::Model;

/// The steps of a declared flow, seen as their list.
#[derive(Drop)]
pub struct FlowSteps {
    list: Vec<FlowStep>,
}

impl Model for FlowSteps {
    ghost use Rattle.std.specs.Prelude.{List};
    ghost use Rattle.eio_value.specs.declared.flow_step.FlowStep.{FlowStep as Step};

    ghost Value = { List Step };

    ghost view = { λ inside. inside.list.items };
}

impl FlowSteps {
    /// These steps.
    pub fn new(list: Vec<FlowStep>) -> FlowSteps
        ensures { result ≡ list.items }
    {
        FlowSteps { list }
    }

    /// The steps, in order.
    pub fn as_slice(&self) -> &[FlowStep]
        ensures { result.now ≡ self.now }
    {
        self.list.as_slice()
    }
}

/// What a declaration declares, with its operands besides the name.
#[derive(Drop)]
pub enum Decl {
    /// A stream of this capacity.
    Stream(u32),
    Promise,
    /// A semaphore of this count.
    Semaphore(u32),
    Mutex,
    /// A pool of this size.
    Pool(u32),
    /// An executor with a worker on each of these bodies.
    Executor(Numbers),
    /// A flow, for the mocked domain alone.
    Flow(FlowSteps),
    /// A directory, for the mocked domain alone.
    Dir(Entries),
}
