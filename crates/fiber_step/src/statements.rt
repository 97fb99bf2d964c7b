//! What the statements do that are left of a block, up to where the fiber calls, goes on, or raises.
//!
//! A raise is only said here: whoever takes the turn makes it, and so no statement has the number of the next raise.

ghost use Rattle.std.specs.Prelude.{◌≡◌, ◌≤◌, ◌<◌, ◌^◌, length, List, IfOk, OnOk};
ghost use Rattle.fiber_step.specs.Having.{BeginsStatement, HasStatements};
ghost use Rattle.fiber_step.specs.Stating.{IsForm};
ghost use Rattle.script_forms.specs.Flat.{nodes_of};

use crate::ask::Ask;
use crate::evaluation::evaluate;
use crate::fiber::Fiber;
use crate::mark::Mark;
use crate::progress::Progress;
use crate::step::{Step, Stepped, step_at};
use eio_value::{NoMemory, Plain, Value};
use script_code::Script;
use script_forms::{Node, ObjectCall};

/// The number of the form behind the `let`s that begin here.
fn form_of(script: &Script, number: u32) -> u32
    requires { BeginsStatement (nodes_of script.now) number }
    ensures { IsForm (nodes_of script.now) number result }
{
    let mut form = number;
    // The label is the loop's name in its proof.
    'lets: while let Node::LetForm = script.node(form) {
        form += 1;
    }
    form
}

impl Fiber {
    ghost use Rattle.eio_value.specs.declared.raised.Outcome.TheVariants as outcome;
    ghost use Rattle.eio_value.specs.declared.value.Value.{Value as Held};
    ghost use Rattle.std.specs.Prelude.{◌+◌, ℕ, true};
    ghost use Rattle.script_code.specs.Standing.{Stands};
    ghost use Rattle.script_forms.specs.declared.node.Node.{Node as Begun};
    ghost use Rattle.script_forms.specs.declared.node.Node.TheVariants as node;
    ghost use Rattle.fiber_step.specs.Having.{HasExpression};
    ghost use Rattle.fiber_step.specs.Stepping.{IsStepped};
    ghost use Rattle.fiber_step.specs.Stating.{binding, NoGive, is_entering, IsLastStep, IsSilentStep, IsDoneBy};
    ghost use Rattle.fiber_step.specs.Turning.{with_mark, IsTurnOrRaise};
    ghost use Rattle.fiber_step.specs.declared.mark.Mark.TheVariants as mark;

    /// The marks of so many `let`s whose form is under way.
    fn bind(&mut self, lets: u32) -> Result<(), NoMemory>
        ensures { OnOk result (self.new ≡ binding lets self.old) }
    {
        let mut left = lets;
        // The label is the loop's name in its proof.
        'binding: while left > 0 {
            let slot = self.slots();
            self.push(Mark::Bind { slot })?;
            left -= 1;
        }
        Ok(())
    }

    /// The statements of a block from this node on.
    ///
    /// # Errors
    /// [`NoMemory`] where memory runs out.
    pub(crate) fn run(&mut self, script: &Script, at: u32) -> Result<Progress, NoMemory>
        requires { HasStatements (nodes_of script.now) at }
        ensures { IfOk result (λ it. (value : Held) → IsTurnOrRaise (nodes_of script.now) script.now.texts (outcome.Ok value) (with_mark (mark.Run at) self.old) it self.new) }
    {
        match script.node(at) {
            Node::End => Ok(Progress::GoesOn(Value::Unit)),
            Node::Give => Ok(self.give(script, at)),
            _ => self.state(script, at, form_of(script, at)),
        }
    }

    /// The statement that gives its block's value.
    fn give(&self, script: &Script, at: u32) -> Progress
        requires within { at + 1 < 2 ^ 32 }
        requires gives { Stands (nodes_of script.now) at node.Give }
        requires operand { HasExpression (nodes_of script.now) (at + 1) }
        ensures { (value : Held) → IsTurnOrRaise (nodes_of script.now) script.now.texts (outcome.Ok value) (with_mark (mark.Run at) self.now) result self.now }
    {
        match evaluate(script, at + 1, self.variables()) {
            Ok(operand) => Progress::GoesOn(operand.value),
            Err(why) => Progress::Raises(Plain::Invalid(why)),
        }
    }

    /// A statement that doesn't give its block's value, with the number of the form behind its `let`s.
    fn state(&mut self, script: &Script, at: u32, form: u32) -> Result<Progress, NoMemory>
        requires form { IsForm (nodes_of script.now) at form }
        requires first { NoGive (nodes_of script.now) at }
        ensures { IfOk result (λ it. (value : Held) → IsTurnOrRaise (nodes_of script.now) script.now.texts (outcome.Ok value) (with_mark (mark.Run at) self.old) it self.new) }
    {
        match step_at(script, form, self.variables()) {
            Ok(stepped) => self.take_step(at, form, stepped),
            Err(why) => Ok(Progress::Raises(Plain::Invalid(why))),
        }
    }

    /// What the form of a statement comes to, behind its `let`s.
    fn take_step(&mut self, at: u32, form: u32, stepped: Stepped) -> Result<Progress, NoMemory>
        requires lets { at ≤ form }
        requires step { IsLastStep stepped.step }
        ensures { IfOk result (λ it. (nodes : List Begun) (texts : List (List ℕ)) (value : Held) → IsForm nodes at form → NoGive nodes at → IsStepped nodes (length texts) form self.old.variables stepped → IsTurnOrRaise nodes texts (outcome.Ok value) (with_mark (mark.Run at) self.old) it self.new) }
    {
        if let Step::Raises(text) = stepped.step {
            return Ok(Progress::Raises(Plain::Failure(text)));
        }
        self.push(Mark::Run(stepped.after))?;
        self.bind(form - at)?;
        self.go_by(stepped.step)
    }

    /// What a statement comes to that raises nothing.
    fn go_by(&mut self, step: Step) -> Result<Progress, NoMemory>
        requires { IsSilentStep step }
        ensures { IfOk result (λ it. IsDoneBy step self.old it self.new) }
    {
        match step {
            Step::Past(value) => Ok(Progress::GoesOn(value)),
            Step::Named(value) => {
                self.name(value)?;
                Ok(Progress::GoesOn(Value::Unit))
            }
            Step::Calls(call) => Ok(Progress::Calls(call)),
            Step::Locks { mutex, body } => {
                self.push(Mark::Locking { mutex, body })?;
                Ok(Progress::Calls(Ask::OnObject {
                    call: ObjectCall::Lock,
                    object: mutex,
                }))
            }
            Step::Uses { pool, body } => {
                self.push(Mark::Using { pool, body })?;
                Ok(Progress::Calls(Ask::Use { pool }))
            }
            _ => self.enter_by(step),
        }
    }

    /// The same where it goes into a block.
    fn enter_by(&mut self, step: Step) -> Result<Progress, NoMemory>
        requires silent { IsSilentStep step }
        requires enters { is_entering step ≡ true }
        ensures { IfOk result (λ it. IsDoneBy step self.old it self.new) }
    {
        let keep = self.slots();
        match step {
            Step::Block { body } => {
                self.go_into(Mark::Cut { keep }, body)?;
                Ok(Progress::GoesOn(Value::Unit))
            }
            Step::Tried { tried, handler } => {
                self.go_into(Mark::Try { handler, keep }, tried)?;
                Ok(Progress::GoesOn(Value::Unit))
            }
            Step::Looped { body } => {
                self.go_into(Mark::Loop { body, keep }, body)?;
                Ok(Progress::Calls(Ask::Turn))
            }
            Step::Repeated { left, body } => {
                self.name(Value::Int(0))?;
                let end = Mark::Repeat {
                    turn: 1,
                    left,
                    body,
                    keep,
                };
                self.go_into(end, body)?;
                Ok(Progress::Calls(Ask::Turn))
            }
            _ => unreachable!(),
        }
    }
}
