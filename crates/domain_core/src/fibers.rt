//! The fibers of a domain, by their numbers.
//!
//! Those that haven't ended are kept in a slab; each number has the key of its fiber until that ends. An exception is large and
//! rare, so that those with which fibers go on lie in a slab of their own. Seen as the list of all fibers that were made, each
//! standing as a fiber of the definitions does, with nothing in the place of one that has ended. The theorems are the clauses of
//! the methods of [`Fibers`], and the invariant is `AreKeyed` and `AreThrown`.

ghost use Rattle.std.specs.Prelude.{◌≡◌, ◌<◌, ◌≤◌, ◌-◌, ◌^◌, ◌++◌, ◌∷◌, ℕ, List, [], length, count_by, is_some, slice_get, slice_set, Some, None, IsSome, IfOk, OnOk, OnErr};
ghost use Rattle.std.specs.Option.{option_map, option_and_then, option_copied};
ghost use Rattle.eio_value.specs.declared.raised.Outcome.TheVariants as outcome;
ghost use Rattle.eio_value.specs.declared.raised.Raised.{Raised as Thrown};
ghost use Rattle.spec_machine.specs.Domain as model;
ghost use Rattle.slab.specs.Slab.{ContainsKey};
ghost use Rattle.domain_core.specs.Keeping.{kept_at, new_fiber, changed_at};
ghost use Rattle.domain_core.specs.Keyed.{HasKey, IsWithout, role_of, standing_of, plain_standing, fiber_of, thrown_under, raised_of};
ghost use Rattle.domain_core.specs.Opening.{HasBody};
ghost use Rattle.domain_core.specs.Stepping.{IsPlacedAt, Enters, Handles, Settles};
ghost use Rattle.fiber_step.specs.Having.{HasStatements};
ghost use Rattle.fiber_step.specs.Settling.{HasTextsOfOutcome};
ghost use Rattle.fiber_step.specs.Stepping.{HasBodiesOf};
ghost use Rattle.script_forms.specs.Flat.{nodes_of};
ghost use Rattle.script_forms.specs.declared.node.Node.{Node as Begun};

use crate::fiber::Fiber;
use crate::standing::{Next, Role, Standing};
use eio_value::{NoMemory, Outcome, Raised, Texts, Value};
use fiber_step::{Ask, Fiber as Frames, Variables, first_node};
use script_code::Script;
use slab::Slab;
use std::alloc::Global;
use std::marker::Model;

/// The most fibers that may live.
pub(crate) const MOST_FIBERS: usize = 1024;

/// The number of the fiber that runs the body, which is made first.
pub(crate) const BODY_FIBER: u32 = 0;

/// All fibers that were made.
#[derive(Drop)]
pub(crate) struct Fibers {
    /// Under which key each is kept, until it ends.
    keys: Vec<Option<usize>>,
    kept: Slab<Fiber>,
    thrown: Slab<Raised>,
}

impl Model for Fibers {
    ghost use Rattle.std.specs.Prelude.{List, Option};
    ghost use Rattle.domain_core.specs.Keeping.{KeptFiber};
    ghost use Rattle.domain_core.specs.KeptCode.{fibers_code};
    ghost use Rattle.domain_core.specs.Keyed.{kept_in, fibers_in, AreKeyed, AreThrown};

    ghost Value = { List (Option KeptFiber) };

    ghost coded = { fibers_code };

    ghost view = { λ f. fibers_in f.keys.items f.kept f.thrown };

    ghost invariant = { λ f. AreKeyed f.keys.items f.kept × AreThrown (kept_in f.keys.items f.kept) f.thrown };
}

impl Fibers {
    /// No fibers, with room for as many as may live.
    ///
    /// # Errors
    /// [`NoMemory`] where memory runs out.
    pub(crate) fn new(alloc: Global) -> Result<Fibers, NoMemory>
        ensures { IfOk result (λ fibers. fibers ≡ []) }
    {
        Ok(Fibers {
            keys: Vec::new(alloc),
            kept: Slab::with_capacity(alloc, MOST_FIBERS)?,
            thrown: Slab::new(alloc),
        })
    }

    /// The fiber of a body alone, which is about to run that in this context.
    ///
    /// # Errors
    /// [`NoMemory`] where memory runs out.
    pub(crate) fn of_body(
        alloc: Global,
        script: &Script,
        body: u8,
        context: u32,
    ) -> Result<Fibers, NoMemory>
        requires { body < length script.now.bodies }
        ensures { IfOk result (HasBody script.now body context) }
    {
        let frames = Frames::new(
            alloc,
            first_node(script, body),
            Variables::new(Vec::new(alloc)),
        )?;
        let mut fibers = Fibers::new(alloc)?;
        fibers.add(context, Role::Body, frames)?;
        Ok(fibers)
    }

    /// How many haven't ended.
    pub(crate) fn live(&self) -> usize
        ensures { result ≡ count_by is_some self.now }
    {
        self.kept.len()
    }

    /// How many were made.
    pub(crate) fn made(&self) -> usize
        ensures { result ≡ length self.now }
    {
        self.keys.len()
    }

    /// How the fiber of this number stands, if it was made and hasn't ended.
    pub(crate) fn standing(&self, number: u32) -> Option<Standing>
        ensures { (thrown : ℕ → Thrown) × (option_map (standing_of thrown) result ≡ option_map (λ fiber. fiber.standing) (kept_at self.now number)) }
    {
        match found(&self.keys, number) {
            Some(key) => Some(self.kept[key].standing),
            None => None,
        }
    }

    /// The exception that the fiber of this number goes on with, if it does. It is forgotten once the fiber stands otherwise.
    pub(crate) fn thrown(&self, number: u32) -> Option<&Raised>
        requires { IsSome (kept_at self.now number) }
        ensures { option_copied result ≡ option_and_then (λ fiber. raised_of fiber.standing) (kept_at self.now number) }
    {
        match self.kept[key_of(&self.keys, number)].standing {
            Standing::Throws(key) => self.thrown.get(key),
            _ => None,
        }
    }

    /// The fiber of this number, which hasn't ended.
    pub(crate) fn at(&self, number: u32) -> &Fiber
        requires { IsSome (kept_at self.now number) }
        ensures { (thrown : ℕ → Thrown) × (kept_at self.now number ≡ Some (fiber_of thrown result.now)) }
    {
        &self.kept[key_of(&self.keys, number)]
    }

    /// A new fiber, which is ready to run its frames, and its number.
    ///
    /// # Errors
    /// [`NoMemory`] where memory runs out; then nothing was made.
    pub(crate) fn add(&mut self, context: u32, role: Role, frames: Frames) -> Result<u32, NoMemory>
        requires room { count_by is_some self.old < 1024 }
        requires countable { length self.old < 2 ^ 32 - 1 }
        ensures number { IfOk result (λ number. number ≡ length self.old) }
        ensures ok { OnOk result (self.new ≡ self.old ++ Some (new_fiber (length self.old) context (role_of role) frames) ∷ []) }
        ensures err { OnErr result (self.new ≡ self.old) }
    {
        let number = self.keys.len() as u32;
        self.keys.reserve(1)?;
        let key = self.kept.insert_reserved(Fiber {
            number,
            context,
            role,
            standing: Standing::Ready(Next::GoesOn(Value::Unit)),
            frames,
        });
        self.keys.push_reserved(Some(key));
        Ok(number)
    }

    /// The fiber stands so from now on, without an exception.
    pub(crate) fn stand(&mut self, number: u32, standing: Standing)
        requires lives { IsSome (kept_at self.old number) }
        requires none { thrown_under standing ≡ None }
        ensures { self.new ≡ changed_at number (λ fiber. record fiber { standing = plain_standing standing }) self.old }
    {
        let key = key_of(&self.keys, number);
        forget(&mut self.thrown, self.kept[key].standing);
        self.kept[key].standing = standing;
    }

    /// The fiber goes on with this exception.
    ///
    /// # Errors
    /// [`NoMemory`] where memory runs out; then the fiber stands as it did.
    pub(crate) fn throw(&mut self, number: u32, raised: &Raised) -> Result<(), NoMemory>
        requires lives { IsSome (kept_at self.old number) }
        ensures ok { OnOk result (self.new ≡ changed_at number (λ fiber. record fiber { standing = model.Ready (model.GoesOn (outcome.Err raised.now)) }) self.old) }
        ensures err { OnErr result (self.new ≡ self.old) }
    {
        self.thrown.reserve(1)?;
        let key = key_of(&self.keys, number);
        let thrown = self.thrown.insert_reserved(*raised);
        forget(&mut self.thrown, self.kept[key].standing);
        self.kept[key].standing = Standing::Throws(thrown);
        Ok(())
    }

    /// The fiber runs in another context.
    pub(crate) fn go_to(&mut self, number: u32, context: u32)
        requires { IsSome (kept_at self.old number) }
        ensures { self.new ≡ changed_at number (λ fiber. record fiber { context = context }) self.old }
    {
        let key = key_of(&self.keys, number);
        self.kept[key].context = context;
    }

    /// The fiber goes before the block of its call, which was answered with this number.
    ///
    /// # Errors
    /// [`NoMemory`] where memory runs out.
    pub(crate) fn enter(
        &mut self,
        number: u32,
        script: &Script,
        ask: &Ask,
        made: u32,
    ) -> Result<(), NoMemory>
        requires lives { IsSome (kept_at self.old number) }
        requires bodies { HasBodiesOf (nodes_of script.now) ask.now }
        requires placed { IsPlacedAt (nodes_of script.now) number self.old }
        ensures { OnOk result (Enters (nodes_of script.now) ask.now made number self.old self.new) }
    {
        let key = key_of(&self.keys, number);
        self.kept[key].frames.enter(script, ask, made)
    }

    /// The fiber goes before a handler of the switch that this call closes, in a context of this number, with the variables that the handler was
    /// registered with.
    ///
    /// # Errors
    /// [`NoMemory`] where memory runs out.
    pub(crate) fn handle(
        &mut self,
        number: u32,
        ask: &Ask,
        context: u32,
        handler: u32,
        registered: Variables,
    ) -> Result<(), NoMemory>
        requires lives { IsSome (kept_at self.old number) }
        ensures { OnOk result ((nodes : List Begun) → HasStatements nodes handler → IsPlacedAt nodes number self.old → Handles nodes ask.now context handler registered number self.old self.new) }
    {
        let key = key_of(&self.keys, number);
        self.kept[key]
            .frames
            .handle(ask, context, handler, registered)
    }

    /// The fiber runs its silent statements up to its next call, which is written into `ask`.
    ///
    /// # Errors
    /// [`NoMemory`] where memory runs out.
    pub(crate) fn settle(
        &mut self,
        number: u32,
        script: &Script,
        texts: &mut Texts,
        serials: &mut u64,
        came: &Outcome,
        ask: &mut Ask,
    ) -> Result<(), NoMemory>
        requires lives { IsSome (kept_at self.old number) }
        requires placed { IsPlacedAt (nodes_of script.now) number self.old }
        requires texts { length script.now.texts ≤ length texts.old }
        requires came { HasTextsOfOutcome texts.old came.now }
        ensures { OnOk result (Settles (nodes_of script.now) came.now number self.old texts.old serials.old ask.new self.new texts.new serials.new) }
    {
        let key = key_of(&self.keys, number);
        self.kept[key]
            .frames
            .settle_in(script, texts, serials, came, ask)
    }

    /// The same with a value.
    ///
    /// # Errors
    /// [`NoMemory`] where memory runs out.
    pub(crate) fn settle_value(
        &mut self,
        number: u32,
        script: &Script,
        texts: &mut Texts,
        serials: &mut u64,
        value: Value,
        ask: &mut Ask,
    ) -> Result<(), NoMemory>
        requires lives { IsSome (kept_at self.old number) }
        requires placed { IsPlacedAt (nodes_of script.now) number self.old }
        requires texts { length script.now.texts ≤ length texts.old }
        ensures { OnOk result (Settles (nodes_of script.now) (outcome.Ok value) number self.old texts.old serials.old ask.new self.new texts.new serials.new) }
    {
        let key = key_of(&self.keys, number);
        self.kept[key]
            .frames
            .settle_value(script, texts, serials, value, ask)
    }

    /// The fiber has ended.
    pub(crate) fn end(&mut self, number: u32)
        requires { IsSome (kept_at self.old number) }
        ensures { self.new ≡ slice_set self.old number None }
    {
        let key = key_of(&self.keys, number);
        self.keys[number as usize] = None;
        let ended = self.kept.remove(key);
        forget(&mut self.thrown, ended.standing);
    }
}

/// The key of a fiber, if it has one.
fn found(keys: &[Option<usize>], number: u32) -> Option<usize>
    ensures { result ≡ kept_at keys.now number }
{
    *keys.get(number as usize)?
}

/// The key of a fiber that has one.
fn key_of(keys: &[Option<usize>], number: u32) -> usize
    requires { HasKey keys.now number }
    ensures { slice_get keys.now number ≡ Some (Some result) }
{
    keys[number as usize].unwrap()
}

/// The exception goes with which a fiber stood so.
fn forget(thrown: &mut Slab<Raised>, standing: Standing)
    requires { (key : ℕ) → thrown_under standing ≡ Some key → ContainsKey thrown.old key }
    ensures { IsWithout (thrown_under standing) thrown.old thrown.new }
{
    if let Standing::Throws(key) = standing {
        thrown.remove(key);
    }
}
