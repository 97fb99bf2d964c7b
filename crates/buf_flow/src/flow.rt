//! A scripted flow. Clauses see it as the list of its steps to come.
ghost use Rattle.std.specs.Prelude.{◌≡◌};

use eio_value::{Bytes, FlowStep, TextId};
use std::collections::VecDeque;
use std::marker::Model;

/// What a read of a scripted flow gives.
#[derive(Drop)]
pub enum FlowRead {
    /// These bytes came.
    Data(Bytes),
    /// The read raises a failure with this text.
    Fault(TextId),
    /// Nothing came yet.
    Pause,
    /// No more comes, however often it is read.
    End,
}

/// A scripted flow, of which each read spends one step.
#[derive(Drop)]
pub struct MockFlow {
    steps: VecDeque<FlowStep>,
}

impl Model for MockFlow {
    ghost use Rattle.std.specs.Prelude.{List};
    ghost use Rattle.eio_value.specs.declared.flow_step.FlowStep.{FlowStep};

    ghost Value = { List FlowStep };

    ghost view = { λ flow. flow.steps.items };
}

impl MockFlow {
    ghost use Rattle.spec_parts.specs.Flows.{next_step, behind_next};
    ghost use Rattle.buf_flow.specs.FlowReads.{read_of};

    /// A flow with these steps to come.
    pub fn new(steps: Vec<FlowStep>) -> MockFlow
        ensures { result ≡ steps.items }
    {
        MockFlow {
            steps: VecDeque::from(steps),
        }
    }

    /// The next step, which is spent.
    pub fn read(&mut self) -> FlowRead
        ensures next { result ≡ read_of (next_step self.old) }
        ensures behind { self.new ≡ behind_next self.old }
    {
        match self.steps.pop_front() {
            Some(FlowStep::Data(bytes)) => FlowRead::Data(bytes),
            Some(FlowStep::Fault(text)) => FlowRead::Fault(text),
            Some(FlowStep::Pause) => FlowRead::Pause,
            None => FlowRead::End,
        }
    }
}
