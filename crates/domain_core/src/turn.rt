//! A turn of a domain: the first strike that it owes, else a message, else the head of the ready list.
//!
//! No form that is built waits on an object or submits a job, so that no message comes. The theorem is the contract of
//! [`Domain::turn`], and of [`Domain::turn_told`], which makes no line of its own.

ghost use Rattle.std.specs.Prelude.{◌≡◌, ◌≢◌, ◌<◌, ◌+◌, ◌≤◌, ◌-◌, ◌^◌, List, [], false, length, IfOk, OnOk, IfSome, IfNone};
ghost use Rattle.eio_value.specs.declared.raised.Outcome.TheVariants as outcome;
ghost use Rattle.fiber_step.specs.Standing.{ask_of};
ghost use Rattle.fiber_step.specs.Stepping.{HasBodiesOf};
ghost use Rattle.spec_machine.specs.Domain.{DomainState};
ghost use Rattle.script_forms.specs.Flat.{nodes_of};
ghost use Rattle.script_forms.specs.declared.node.Node.{Node};
ghost use Rattle.law_domain.specs.Well.WellStates.{IsRunnable};
ghost use Rattle.domain_core.specs.Answering.{Answers, SameCounts};
ghost use Rattle.domain_core.specs.Conditions.{RunsInLive};
ghost use Rattle.domain_core.specs.Keyed.{call_of};
ghost use Rattle.domain_core.specs.Moving.{with_head, ComesTo, GoesOnWith, IsOfScope, IsReady, MayAnswer, MovesOwn};
ghost use Rattle.domain_core.specs.Objects.{AreFor};
ghost use Rattle.domain_core.specs.Turns.{StandsFor, StandsForSome, Turns, turned_to};

use crate::domain::Domain;
use crate::standing::{Again, Next, Standing};
use crate::told::Told;
use eio_value::{Extras, NoMemory, Outcome, Plain, Raised, Texts, Value};
use fiber_step::Ask;
use script_code::Script;
use script_forms::Forking;
use trace_lines::Line;

/// What a turn of a domain came to.
#[derive(Clone, Copy)]
pub enum Turn {
    /// The domain made this line.
    Moved(Line),
    /// There was nothing to do: no obligation, no message, no fiber that can move and, where mocked, no timer.
    Idle,
    /// The domain has made as many lines as it may.
    Spent,
    /// The domain has met a limit.
    Halted,
}

/// What a turn of a domain came to where what a line says stands in the caller's place.
#[derive(Clone, Copy)]
pub enum Turned {
    /// The domain made a line with this stamp.
    Moved(u64),
    /// There was nothing to do: no obligation, no message, no fiber that can move and, where mocked, no timer.
    Idle,
    /// The domain has made as many lines as it may.
    Spent,
    /// The domain has met a limit.
    Halted,
}

/// The same with the line, where one was made.
fn turn_of(turned: Turned, number: u8, told: &Told) -> Turn
    ensures { result ≡ turned_to number told.now turned }
{
    match turned {
        Turned::Moved(stamp) => Turn::Moved(told.line(stamp, number)),
        Turned::Idle => Turn::Idle,
        Turned::Spent => Turn::Spent,
        Turned::Halted => Turn::Halted,
    }
}

impl Domain {
    /// Makes one line, if there is something to do and the domain may.
    ///
    /// The objects are mocked exactly where the domain is. After an error the domain isn't used again.
    ///
    /// # Errors
    /// [`NoMemory`] where memory, or the numbers for raises, run out.
    pub fn turn<O: Extras>(
        &mut self,
        script: &Script,
        texts: &mut Texts,
        objects: &mut O,
    ) -> Result<Turn, NoMemory>
        requires runnable { IsRunnable script.now }
        requires stands { StandsForSome script.now texts.old self.old }
        requires objects { AreFor self.old (O.is_mocked objects.old) (O.terms objects.old) (O.seen objects.old) (O.is_open objects.old) }
        requires early { self.old.stamp < 2 ^ 60 - 4 }
        requires texts { length script.now.texts ≤ length texts.old }
        ensures turns { IfOk result (λ turn. Turns O.calls O.strikes O.receives O.extras O.learns script.now turn texts.old texts.new self.old self.new objects.old objects.new) }
        ensures objects { OnOk result (AreFor self.new (O.is_mocked objects.new) (O.terms objects.new) (O.seen objects.new) (O.is_open objects.new)) }
        ensures stands { OnOk result (StandsForSome script.now texts.new self.new) }
    {
        let mut told = Told::nothing();
        let turned = self.turn_told(script, texts, objects, &mut told)?;
        Ok(turn_of(turned, self.number, &told))
    }

    /// The same, where what the line says is written into `told`: it is large, and most lines are looked at by nobody. Where no line is made,
    /// what stands there is of no use.
    ///
    /// # Errors
    /// [`NoMemory`] where memory, or the numbers for raises, run out.
    pub fn turn_told<O: Extras>(
        &mut self,
        script: &Script,
        texts: &mut Texts,
        objects: &mut O,
        told: &mut Told,
    ) -> Result<Turned, NoMemory>
        requires runnable { IsRunnable script.now }
        requires stands { StandsForSome script.now texts.old self.old }
        requires objects { AreFor self.old (O.is_mocked objects.old) (O.terms objects.old) (O.seen objects.old) (O.is_open objects.old) }
        requires early { self.old.stamp < 2 ^ 60 - 4 }
        requires texts { length script.now.texts ≤ length texts.old }
        ensures turns { IfOk result (λ it. Turns O.calls O.strikes O.receives O.extras O.learns script.now (turned_to self.new.number told.new it) texts.old texts.new self.old self.new objects.old objects.new) }
        ensures objects { OnOk result (AreFor self.new (O.is_mocked objects.new) (O.terms objects.new) (O.seen objects.new) (O.is_open objects.new)) }
        ensures stands { OnOk result (StandsForSome script.now texts.new self.new) }
    {
        if self.halted {
            return Ok(Turned::Halted);
        }
        if self.lines >= self.budget {
            return Ok(Turned::Spent);
        }
        if let Some(strike) = self.owed.pop() {
            self.strike(strike, told)?;
            return Ok(Turned::Moved(self.next_stamp()));
        }
        if objects.receive().is_some() {
            // Nobody waits on an object, and no job was submitted (`AreFor`).
            unreachable!()
        }
        let Some(fiber) = self.ready.pop() else {
            return Ok(Turned::Idle);
        };
        self.move_of(script, texts, fiber, told)?;
        Ok(Turned::Moved(self.next_stamp()))
    }

    /// The move of the fiber that stood first in the ready list: its silent statements, and its next call.
    fn move_of(
        &mut self,
        script: &Script,
        texts: &mut Texts,
        fiber: u32,
        told: &mut Told,
    ) -> Result<(), NoMemory>
        requires runnable { IsRunnable script.now }
        requires stands { StandsForSome script.now texts.old (with_head fiber self.old) }
        requires owes { self.old.owed ≡ [] }
        requires going { self.old.halted ≡ false }
        requires texts { length script.now.texts ≤ length texts.old }
        requires few { self.old.lines < 1000000 }
        ensures moves { OnOk result ((l : DomainState) → StandsFor script.now texts.old (with_head fiber self.old) l → MovesOwn script.now texts.new l told.new self.new) }
        ensures same { OnOk result (SameCounts self.old self.new) }
        ensures texts { OnOk result (texts.new ≡ texts.old) }
    {
        // A match and no `?`: behind one the kit's prover fails, by a fault of its own.
        let mut ask = Ask::Yield;
        match self.next_call(script, texts, fiber, &mut ask) {
            Ok(()) => self.answer(script, fiber, &ask, told),
            Err(error) => Err(error),
        }
    }

    /// The call of a fiber is answered.
    fn answer(
        &mut self,
        script: &Script,
        fiber: u32,
        ask: &Ask,
        told: &mut Told,
    ) -> Result<(), NoMemory>
        requires may { MayAnswer script.now fiber ask.now self.old }
        ensures answers { OnOk result (Answers script.now ask.now fiber self.old told.new self.new) }
        ensures same { OnOk result (SameCounts self.old self.new) }
    {
        match *ask {
            Ask::Trace(operands) => {
                self.trace(fiber, operands, told);
                Ok(())
            }
            Ask::Yield => {
                self.yield_now(fiber, told);
                Ok(())
            }
            Ask::Check => self.check(fiber, told),
            Ask::AwaitCancel => {
                self.await_cancel(fiber, told);
                Ok(())
            }
            Ask::Turn => {
                self.turn_begins(fiber, told);
                Ok(())
            }
            Ask::End(outcome) => {
                self.end(fiber, &outcome, told);
                Ok(())
            }
            _ => self.answer_scope(script, fiber, ask, told),
        }
    }

    /// The same for calls on contexts, switches and groups.
    fn answer_scope(
        &mut self,
        script: &Script,
        fiber: u32,
        ask: &Ask,
        told: &mut Told,
    ) -> Result<(), NoMemory>
        requires may { MayAnswer script.now fiber ask.now self.old }
        requires scope { IsOfScope ask.now }
        ensures answers { OnOk result (Answers script.now ask.now fiber self.old told.new self.new) }
        ensures same { OnOk result (SameCounts self.old self.new) }
    {
        match *ask {
            Ask::Sub { body } => self.sub(script, fiber, body, told),
            Ask::Protect { body } => self.protect(script, fiber, body, told),
            Ask::Leave {
                context,
                late,
                outcome,
            } => self.leave(fiber, context, late, outcome, told),
            Ask::Cancel { context, text } => self.cancel(fiber, context, text, told),
            Ask::Switch { body } => self.open_switch(script, fiber, body, told),
            Ask::Fork {
                forking,
                switch,
                body,
            } => {
                let daemon = matches!(forking, Forking::Daemon);
                self.fork(fiber, daemon, switch, body, told)
            }
            Ask::Fail { switch, text } => self.fail(fiber, switch, text, told),
            Ask::OnRelease { switch, handler } => {
                self.on_release(script, fiber, switch, handler, told)
            }
            Ask::Close {
                switch,
                failed,
                kept,
            } => self.close(script, fiber, switch, failed, kept, told),
            Ask::Branches { group, form } => self.branches(script, fiber, group, form, told),
            Ask::Join { group, own } => self.join(fiber, group, own, told),
            // `answer` has the calls of its own; no other form is built (`MayAnswer`).
            _ => unreachable!(),
        }
    }

    /// Writes the next call of a fiber into `ask`, before which it has run its silent statements.
    ///
    /// # Errors
    /// [`NoMemory`] where memory, or the numbers for raises, run out; the domain isn't used again then.
    fn next_call(
        &mut self,
        script: &Script,
        texts: &mut Texts,
        fiber: u32,
        ask: &mut Ask,
    ) -> Result<(), NoMemory>
        requires runnable { IsRunnable script.now }
        requires stands { StandsForSome script.now texts.old (with_head fiber self.old) }
        requires owes { self.old.owed ≡ [] }
        requires going { self.old.halted ≡ false }
        requires texts { length script.now.texts ≤ length texts.old }
        ensures calls { OnOk result ((l : DomainState) → StandsFor script.now texts.old (with_head fiber self.old) l → ComesTo script.now texts.new l fiber ask.new self.new) }
        ensures bodies { OnOk result (HasBodiesOf (nodes_of script.now) ask.new) }
        ensures same { OnOk result (SameCounts self.old self.new) }
    {
        if let Some(again) = called_again(self.fibers.at(fiber).standing) {
            *ask = made_again(again);
            return Ok(());
        }
        if let Some(value) = self.value_for(fiber) {
            return self
                .fibers
                .settle_value(fiber, script, texts, &mut self.serial, value, ask);
        }
        // A match and no `?`: behind one the kit's prover fails, by a fault of its own.
        match self.came_to(fiber) {
            Ok(came) => self
                .fibers
                .settle(fiber, script, texts, &mut self.serial, &came, ask),
            Err(error) => Err(error),
        }
    }

    /// The value that a fiber goes on with that doesn't make its call again, if it does. An outcome is large, and most moves need none.
    fn value_for(&self, fiber: u32) -> Option<Value>
        requires ready { IsReady self.now fiber }
        requires live { RunsInLive self.now fiber }
        ensures { IfSome result (λ value. GoesOnWith fiber (outcome.Ok value) self.now self.now) }
    {
        let found = self.fibers.at(fiber);
        let (standing, context) = (found.standing, found.context);
        match standing {
            Standing::Ready(Next::GoesOn(value)) => Some(value),
            Standing::Ready(Next::LooksUp) => match self.contexts.is_off(context) {
                Some(_) => None,
                None => Some(Value::Unit),
            },
            _ => None,
        }
    }

    /// What a fiber goes on with that doesn't make its call again: where it finds its context off, a new raise of that.
    ///
    /// # Errors
    /// [`NoMemory`] where there are no more numbers for raises.
    fn came_to(&mut self, fiber: u32) -> Result<Outcome, NoMemory>
        requires ready { IsReady self.old fiber }
        requires live { RunsInLive self.old fiber }
        ensures came { IfOk result (λ came. GoesOnWith fiber came self.old self.new) }
        ensures kept { OnOk result (self.new ≡ record self.old { serial = self.new.serial }) }
    {
        let found = self.fibers.at(fiber);
        let (standing, context) = (found.standing, found.context);
        match standing {
            Standing::Ready(Next::GoesOn(value)) => Ok(Outcome::Ok(value)),
            Standing::Ready(Next::LooksUp) => match self.contexts.is_off(context) {
                Some(why) => Ok(Outcome::Err(Raised::Cancelled(self.new_raise(why)?))),
                None => Ok(Outcome::Ok(Value::Unit)),
            },
            Standing::Ready(Next::FindsOff) => {
                let why = self.contexts.is_off(context).unwrap_or(Plain::Exit);
                Ok(Outcome::Err(Raised::Cancelled(self.new_raise(why)?)))
            }
            Standing::Throws(_) => Ok(Outcome::Err(*self.fibers.thrown(fiber).unwrap())),
            // A fiber of the ready list doesn't wait, and one that makes its call again isn't asked here (`IsReady`).
            _ => unreachable!(),
        }
    }

    /// One more line was made; its stamp is the next.
    fn next_stamp(&mut self) -> u64
        requires early { self.old.stamp < 2 ^ 60 }
        requires few { self.old.lines < self.old.budget }
        ensures stamp { result ≡ self.old.stamp + 1 }
        ensures counts { self.new ≡ record self.old { stamp = self.old.stamp + 1; lines = self.old.lines + 1 } }
    {
        self.stamp += 1;
        self.lines += 1;
        self.stamp
    }
}

/// What a fiber makes again that stands so, if it does.
fn called_again(standing: Standing) -> Option<Again>
    ensures some { IfSome result (λ again. standing ≡ Standing.Ready (Next.CallsAgain again)) }
    ensures none { IfNone result ((again : Again) → standing ≢ Standing.Ready (Next.CallsAgain again)) }
{
    // Apart from `next_call` for the proof alone, which uses that the pattern doesn't fit, where branches have come together.
    match standing {
        Standing::Ready(Next::CallsAgain(again)) => Some(again),
        _ => None,
    }
}

/// The call that is made again.
fn made_again(again: Again) -> Ask
    ensures call { (nodes : List Node) → ask_of nodes result ≡ call_of again }
    ensures bodies { (nodes : List Node) → HasBodiesOf nodes result }
{
    match again {
        Again::Close { switch, kept } => Ask::Close {
            switch,
            failed: None,
            kept,
        },
        Again::Join { group } => Ask::Join { group, own: None },
    }
}
