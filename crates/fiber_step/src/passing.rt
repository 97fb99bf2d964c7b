//! What marks do to which a value comes, and the calls of ends.

ghost use Rattle.std.specs.Prelude.{◌≡◌};
ghost use Rattle.spec_fiber.specs.Settling.{resource_of};

use crate::ask::Ask;
use crate::fiber::Fiber;
use crate::mark::{End, Mark};
use crate::progress::Progress;
use eio_value::{NoMemory, Outcome, Value};

/// The resource that a pool gave. No pool gives another value, for which the greatest number stands.
fn resource_of(value: Value) -> u32
    ensures { result ≡ resource_of value }
{
    match value {
        Value::Int(number) if number >= 0 && number <= u32::MAX as i64 => number as u32,
        _ => u32::MAX,
    }
}

impl Fiber {
    ghost use Rattle.std.specs.Prelude.{◌+◌, ◌<◌, ◌^◌, List, false, length, IfOk, OnOk};
    ghost use Rattle.eio_value.specs.declared.raised.Outcome.TheVariants as outcome;
    ghost use Rattle.eio_value.specs.declared.value.Value.{Value as Held};
    ghost use Rattle.script_forms.specs.declared.node.Node.{Node as Begun};
    ghost use Rattle.fiber_step.specs.Placing.{HasFewTurns};
    ghost use Rattle.fiber_step.specs.Standing.{is_end};
    ghost use Rattle.fiber_step.specs.Turning.{with_mark, gone_into, kept_to, cut_to, naming, IsTurn, is_run};
    ghost use Rattle.fiber_step.specs.declared.ask.Ask.TheVariants as ask;
    ghost use Rattle.eio_value.specs.declared.value.Value.TheVariants as held;
    ghost use Rattle.fiber_step.specs.declared.mark.Mark.TheVariants as mark;
    ghost use Rattle.fiber_step.specs.declared.progress.Progress.TheVariants as progress;

    /// The call of an end, which keeps the first variables alone, or all.
    pub(crate) fn ended(&mut self, end: End) -> Progress
        ensures call { result ≡ progress.Calls end.call }
        ensures kept { self.new ≡ kept_to end.keep self.old }
    {
        if let Some(keep) = end.keep {
            self.cut(keep);
        }
        Progress::Calls(end.call)
    }

    /// What a mark does to which a value comes, but for the statements of a block.
    ///
    /// # Errors
    /// [`NoMemory`] where memory runs out.
    pub(crate) fn pass(&mut self, mark: Mark, value: Value) -> Result<Progress, NoMemory>
        requires mark { is_run mark ≡ false }
        requires turns { HasFewTurns mark }
        ensures { IfOk result (λ it. (nodes : List Begun) → IsTurn nodes (outcome.Ok value) (with_mark mark self.old) it self.new) }
    {
        match mark.end(&Outcome::Ok(value)) {
            Some(end) => Ok(self.ended(end)),
            None => self.pass_silent(mark, value),
        }
    }

    /// The same of a mark that is no end with a call of its own.
    #[tactic(auto, using(crate::proofs::Passes::no_other_mark))]
    fn pass_silent(&mut self, mark: Mark, value: Value) -> Result<Progress, NoMemory>
        requires mark { is_run mark ≡ false }
        requires end { is_end mark ≡ false }
        requires turns { HasFewTurns mark }
        ensures { IfOk result (λ it. (nodes : List Begun) → IsTurn nodes (outcome.Ok value) (with_mark mark self.old) it self.new) }
    {
        match mark {
            Mark::Cut { keep } => Ok(self.cut_off(keep, value)),
            Mark::Try { keep, .. } => Ok(self.cut_off(keep, value)),
            Mark::Bind { slot } => self.bound(slot, value),
            Mark::Loop { body, keep } => self.loop_again(body, keep),
            Mark::Repeat {
                turn,
                left,
                body,
                keep,
            } => self.repeat_again(turn, left, body, keep),
            Mark::Locking { mutex, body } => self.locked(mutex, body, value),
            Mark::Using { pool, body } => self.given(pool, body, value),
            _ => unreachable!(),
        }
    }

    /// The end of a block that does nothing more.
    fn cut_off(&mut self, keep: usize, value: Value) -> Progress
        ensures turn { result ≡ progress.GoesOn value }
        ensures kept { self.new ≡ cut_to keep self.old }
    {
        self.cut(keep);
        Progress::GoesOn(value)
    }

    /// A name for the value of a form.
    fn bound(&mut self, slot: usize, value: Value) -> Result<Progress, NoMemory>
        ensures turn { IfOk result (λ it. it ≡ progress.GoesOn held.Unit) }
        ensures bound { OnOk result (self.new ≡ naming value (cut_to slot self.old)) }
    {
        self.cut(slot);
        self.name(value)?;
        Ok(Progress::GoesOn(Value::Unit))
    }

    /// A turn of a `loop`.
    fn loop_again(&mut self, body: u32, keep: usize) -> Result<Progress, NoMemory>
        ensures turn { IfOk result (λ it. it ≡ progress.Calls ask.Turn) }
        ensures goes { OnOk result (self.new ≡ gone_into (mark.Loop body keep) body (cut_to keep self.old)) }
    {
        self.cut(keep);
        self.go_into(Mark::Loop { body, keep }, body)?;
        Ok(Progress::Calls(Ask::Turn))
    }

    /// A turn of a `repeat`, where one is left.
    fn repeat_again(
        &mut self,
        turn: u64,
        left: u64,
        body: u32,
        keep: usize,
    ) -> Result<Progress, NoMemory>
        requires { turn + left < 2 ^ 63 }
        ensures { IfOk result (λ it. (nodes : List Begun) (value : Held) → IsTurn nodes (outcome.Ok value) (with_mark (mark.Repeat turn left body keep) self.old) it self.new) }
    {
        self.cut(keep);
        if left == 0 {
            return Ok(Progress::GoesOn(Value::Unit));
        }
        self.name(Value::Int(turn as i64))?;
        let end = Mark::Repeat {
            turn: turn + 1,
            left: left - 1,
            body,
            keep,
        };
        self.go_into(end, body)?;
        Ok(Progress::Calls(Ask::Turn))
    }

    /// The block begins once the mutex is had.
    fn locked(&mut self, mutex: u32, body: u32, value: Value) -> Result<Progress, NoMemory>
        ensures turn { IfOk result (λ it. it ≡ progress.GoesOn value) }
        ensures goes { OnOk result (self.new ≡ gone_into (mark.Unlock mutex (length self.old.variables)) body self.old) }
    {
        let keep = self.slots();
        self.go_into(Mark::Unlock { mutex, keep }, body)?;
        Ok(Progress::GoesOn(value))
    }

    /// The block begins once the resource is had, which it names.
    fn given(&mut self, pool: u32, body: u32, value: Value) -> Result<Progress, NoMemory>
        ensures turn { IfOk result (λ it. it ≡ progress.GoesOn value) }
        ensures goes { OnOk result (self.new ≡ gone_into (mark.Put pool (resource_of value) (length self.old.variables)) body (naming value self.old)) }
    {
        let keep = self.slots();
        let resource = resource_of(value);
        self.name(value)?;
        let end = Mark::Put {
            pool,
            resource,
            keep,
        };
        self.go_into(end, body)?;
        Ok(Progress::GoesOn(value))
    }
}
