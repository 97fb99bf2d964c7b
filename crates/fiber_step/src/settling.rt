//! How a fiber goes on from one call to the next.
//!
//! A settling goes on in turns, each of which takes the next item of work. Its theorem is the clause `settled` of
//! [`Fiber::settle_in`], and the invariant of its loop is an equation: the next call is the same from where the fiber stands.
//!
//! A turn only says what is to be raised. The loop makes the raise, since it alone has the table of texts and the number of the
//! next raise.

ghost use Rattle.std.specs.Prelude.{◌≡◌, ◌≤◌, ◌<◌, ◌^◌, length, IfOk, OnOk, OnErr};
ghost use Rattle.fiber_step.specs.Placing.{IsPlacedMark, ArePlaced};
ghost use Rattle.fiber_step.specs.Settling.{SettlesTo, HasTextsOfOutcome};
ghost use Rattle.fiber_step.specs.Stepping.{HasBodiesOf};
ghost use Rattle.fiber_step.specs.Throwing.{shared_by, IsGrown};
ghost use Rattle.script_forms.specs.Flat.{nodes_of};

use crate::ask::Ask;
use crate::fiber::{Fiber, Taken};
use crate::mark::Mark;
use crate::progress::Progress;
use eio_value::{NoMemory, Outcome, Texts, Value};
use script_code::Script;

impl Fiber {
    ghost use Rattle.std.specs.Prelude.{ℕ, List};
    ghost use Rattle.eio_value.specs.declared.raised.Outcome.TheVariants as outcome;
    ghost use Rattle.script_forms.specs.declared.node.Node.{Node as Begun};
    ghost use Rattle.fiber_step.specs.Settling.{HasComeTo};
    ghost use Rattle.fiber_step.specs.Turning.{with_mark, next_behind, next_call, HasItsParts, IsTurnOrRaise};
    ghost use Rattle.fiber_step.specs.declared.progress.Progress.TheVariants as progress;

    /// Takes the next item, to which a value comes.
    ///
    /// # Errors
    /// [`NoMemory`] where memory runs out.
    fn turn(&mut self, script: &Script, value: Value) -> Result<Progress, NoMemory>
        requires { ArePlaced (nodes_of script.now) self.old.items }
        ensures { IfOk result (λ it. IsTurnOrRaise (nodes_of script.now) script.now.texts (outcome.Ok value) self.old it self.new) }
    {
        match self.take() {
            Taken::Nothing => Ok(Progress::Calls(Ask::End(Outcome::Ok(value)))),
            Taken::Restored => Ok(Progress::GoesOn(value)),
            Taken::Mark(mark) => self.take_mark(script, mark, value),
        }
    }

    /// What a mark does that was taken.
    fn take_mark(&mut self, script: &Script, mark: Mark, value: Value) -> Result<Progress, NoMemory>
        requires { IsPlacedMark (nodes_of script.now) mark }
        ensures { IfOk result (λ it. IsTurnOrRaise (nodes_of script.now) script.now.texts (outcome.Ok value) (with_mark mark self.old) it self.new) }
    {
        match mark {
            Mark::Run(at) => self.run(script, at),
            _ => self.pass(mark, value),
        }
    }

    /// What first comes of a value or an exception.
    ///
    /// # Errors
    /// [`NoMemory`] where memory runs out, or the numbers of texts.
    fn receive(&mut self, came: &Outcome, texts: &mut Texts) -> Result<Progress, NoMemory>
        requires { HasTextsOfOutcome texts.old came.now }
        ensures grown { IsGrown texts.old texts.new }
        ensures first { IfOk result (λ it. (nodes : List Begun) (serial : ℕ) → ArePlaced nodes self.old.items → HasComeTo nodes (next_call nodes came.now self.old) (shared_by texts.old serial) it self.new (shared_by texts.new serial)) }
    {
        match came {
            Outcome::Ok(value) => Ok(Progress::GoesOn(*value)),
            Outcome::Err(raised) => self.throw(raised, texts),
        }
    }

    /// Goes on with what came, a value or an exception, up to the next call, or to its end, which is a call too. The call is written into
    /// `ask`, since it is large.
    ///
    /// # Errors
    /// [`NoMemory`] where memory runs out, or the numbers of raises (of 64 bits) or of texts (of 32). Then the fiber isn't used
    /// again, and nothing is said of it; the table of texts may have grown.
    pub fn settle_in(
        &mut self,
        script: &Script,
        texts: &mut Texts,
        serial: &mut u64,
        came: &Outcome,
        ask: &mut Ask,
    ) -> Result<(), NoMemory>
        requires items { ArePlaced (nodes_of script.now) self.old.items }
        requires texts { length script.now.texts ≤ length texts.old }
        requires came { HasTextsOfOutcome texts.old came.now }
        ensures settled { OnOk result (SettlesTo (nodes_of script.now) came.now self.old (shared_by texts.old serial.old) ask.new self.new (shared_by texts.new serial.new)) }
        ensures items { OnOk result (ArePlaced (nodes_of script.now) self.new.items) }
        ensures bodies { OnOk result (HasBodiesOf (nodes_of script.now) ask.new) }
        ensures grown { IsGrown texts.old texts.new }
    {
        // A match and no `?`: behind one the kit's prover fails, by a fault of its own.
        match self.receive(came, texts) {
            Ok(first) => self.go_on(script, texts, serial, first, ask),
            Err(error) => Err(error),
        }
    }

    /// The same with a value, for which no outcome has to be made.
    ///
    /// # Errors
    /// [`NoMemory`] as for [`Fiber::settle_in`].
    pub fn settle_value(
        &mut self,
        script: &Script,
        texts: &mut Texts,
        serial: &mut u64,
        value: Value,
        ask: &mut Ask,
    ) -> Result<(), NoMemory>
        requires items { ArePlaced (nodes_of script.now) self.old.items }
        requires texts { length script.now.texts ≤ length texts.old }
        ensures settled { OnOk result (SettlesTo (nodes_of script.now) (outcome.Ok value) self.old (shared_by texts.old serial.old) ask.new self.new (shared_by texts.new serial.new)) }
        ensures items { OnOk result (ArePlaced (nodes_of script.now) self.new.items) }
        ensures bodies { OnOk result (HasBodiesOf (nodes_of script.now) ask.new) }
        ensures grown { IsGrown texts.old texts.new }
    {
        self.go_on(script, texts, serial, Progress::GoesOn(value), ask)
    }

    /// Goes on in turns from what the first came to, up to the next call, which is written into `ask`.
    ///
    /// # Errors
    /// [`NoMemory`] as for [`Fiber::settle_in`].
    fn go_on(
        &mut self,
        script: &Script,
        texts: &mut Texts,
        serial: &mut u64,
        first: Progress,
        ask: &mut Ask,
    ) -> Result<(), NoMemory>
        requires items { ArePlaced (nodes_of script.now) self.old.items }
        requires texts { length script.now.texts ≤ length texts.old }
        requires parts { HasItsParts (nodes_of script.now) texts.old first }
        ensures come { OnOk result (HasComeTo (nodes_of script.now) (next_behind (nodes_of script.now) first self.old) (shared_by texts.old serial.old) (progress.Calls ask.new) self.new (shared_by texts.new serial.new)) }
        ensures grown { IsGrown texts.old texts.new }
    {
        let mut progress = first;
        // The label is the loop's name in its proof.
        'turns: loop {
            // Matches and no `?`: behind one the kit's prover fails, by a fault of its own.
            match progress {
                Progress::GoesOn(value) => match self.turn(script, value) {
                    Ok(next) => progress = next,
                    Err(error) => return Err(error),
                },
                Progress::Raises(what) => match self.raise(what, texts, serial) {
                    Ok(next) => progress = next,
                    Err(error) => return Err(error),
                },
                Progress::Calls(call) => {
                    *ask = call;
                    return Ok(());
                }
            }
        }
    }

    /// The same by a copy, so that an error changes nothing.
    ///
    /// # Errors
    /// [`NoMemory`] where memory runs out, or the numbers of raises (of 64 bits) or of texts (of 32). Then the fiber, the
    /// number and the table are as they were.
    pub fn settle(
        &mut self,
        script: &Script,
        texts: &mut Texts,
        serial: &mut u64,
        came: &Outcome,
    ) -> Result<Ask, NoMemory>
        requires items { ArePlaced (nodes_of script.now) self.old.items }
        requires texts { length script.now.texts ≤ length texts.old }
        requires came { HasTextsOfOutcome texts.old came.now }
        ensures settled { IfOk result (λ call. SettlesTo (nodes_of script.now) came.now self.old (shared_by texts.old serial.old) call self.new (shared_by texts.new serial.new)) }
        ensures items { OnOk result (ArePlaced (nodes_of script.now) self.new.items) }
        ensures bodies { IfOk result (λ call. HasBodiesOf (nodes_of script.now) call) }
        ensures grown { IsGrown texts.old texts.new }
        ensures fiber { OnErr result (self.new ≡ self.old) }
        ensures serial { OnErr result (serial.new ≡ serial.old) }
        ensures texts { OnErr result (texts.new ≡ texts.old) }
    {
        let before = texts.len();
        let mut next = *serial;
        let mut copy = self.try_clone()?;
        let mut ask = Ask::Yield;
        match copy.settle_in(script, texts, &mut next, came, &mut ask) {
            Ok(()) => {
                *self = copy;
                *serial = next;
                Ok(ask)
            }
            Err(error) => {
                texts.truncate(before);
                Err(error)
            }
        }
    }
}
