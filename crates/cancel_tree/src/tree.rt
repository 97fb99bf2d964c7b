//! The contexts of a domain.
//!
//! The live ones are kept in a slab, and their places, numbers with the slab's keys, in order: a number is found by halving, and
//! where a context ends, the places on the shorter side of its own move by one. Each step of a walk upwards takes constant time,
//! since a context knows where its parent is kept. The walk to a given context also takes the jumps that each context knows, which
//! are chosen so that few lie on any way. The invariant is `IsSound`.
//! The theorems are the clauses of the methods of [`Tree`], by `spec_parts`'s `Contexts`.

ghost use Rattle.std.specs.Prelude.{◌≡◌, ◌<◌, ◌-◌, ◌^◌, [], length, true, IfOk};
ghost use Rattle.std.specs.Option.{ForSome};
ghost use Rattle.std.specs.Result.{result_ok};
ghost use Rattle.spec_parts.specs.Contexts as contexts;
ghost use Rattle.cancel_tree.specs.Endings.{HasNoLiveChild, without};

use crate::kept::{ContextKey, KeptContext, jump_of, place_of};
use eio_value::{Full, NoMemory, Plain};
use slab::Slab;
use std::alloc::Global;
use std::collections::VecDeque;
use std::marker::Model;

/// The most contexts that may live.
const MOST_CONTEXTS: usize = 4096;

/// All contexts that were made.
#[derive(Drop)]
pub(crate) struct Tree {
    /// How many were made: the number of the next.
    made: u32,
    /// Those that live.
    kept: Slab<KeptContext>,
    /// Their places, in order of number.
    places: VecDeque<ContextKey>,
    /// How many of those that live have a reason of their own.
    reasons: u32,
}

impl Model for Tree {
    ghost use Rattle.std.specs.Prelude.{List};
    ghost use Rattle.std.specs.VecDeque.{deque_capacity};
    ghost use Rattle.spec_parts.specs.Contexts.{Context};

    ghost Value = { List Context };

    ghost use Rattle.cancel_tree.specs.KeptContext.{contexts_in};
    ghost use Rattle.cancel_tree.specs.Jumps.{IsSound};

    ghost view = { λ t. contexts_in t.made t.kept t.places.items };

    ghost invariant = { λ t. IsSound t.made t.reasons t.kept t.places.items (deque_capacity t.places) };
}

impl Tree {
    /// No contexts, with room for as many as may live.
    pub(crate) fn new(alloc: Global) -> Result<Tree, NoMemory>
        ensures { IfOk result (λ tree. tree ≡ []) }
    {
        Ok(Tree {
            made: 0,
            kept: Slab::with_capacity(alloc, MOST_CONTEXTS)?,
            places: VecDeque::with_capacity(alloc, MOST_CONTEXTS)?,
            reasons: 0,
        })
    }

    /// Whether the context was made and hasn't ended.
    pub(crate) fn is_live(&self, c: u32) -> bool
        ensures { result ≡ contexts.is_live self.now c }
    {
        place_of(&self.places, c).is_some()
    }

    /// Whether as many live as may.
    pub(crate) fn is_full(&self) -> bool
        ensures { result ≡ contexts.is_full self.now }
    {
        self.places.len() >= MOST_CONTEXTS
    }

    /// The parent of the context, if it has one. Of one that isn't live none is known.
    pub(crate) fn parent(&self, c: u32) -> Option<u32>
        ensures { result ≡ (contexts.context_at self.now c).parent }
    {
        let Some(place) = place_of(&self.places, c) else {
            return None;
        };
        match self.kept[place.key].parent {
            Some(above) => Some(above.number),
            None => None,
        }
    }

    /// The reason by which the context is off: the first on the way up.
    pub(crate) fn off(&self, c: u32) -> Option<Plain>
        ensures { result ≡ contexts.off self.now c }
    {
        // Where none has a reason, no way leads to one.
        if self.reasons == 0 {
            return None;
        }
        let mut next = place_of(&self.places, c);
        // The label is the loop's name in its proof.
        'way: while let Some(place) = next {
            let context = &self.kept[place.key];
            if context.reason.is_some() {
                return context.reason;
            }
            next = context.above();
        }
        None
    }

    /// Whether a cancellation of c reaches x: x is c, or goes up to c through contexts that aren't protected.
    pub(crate) fn goes_up_to(&self, x: u32, c: u32) -> bool
        ensures { result ≡ contexts.goes_up_to self.now x c }
    {
        if x == c {
            return true;
        }
        let mut next = place_of(&self.places, x);
        // The label is the loop's name in its proof.
        'way: while let Some(place) = next {
            if place.number <= c {
                return place.number == c;
            }
            next = self.kept[place.key].towards(c);
        }
        false
    }

    /// Gives the context a reason, if it is live and isn't off; whether it did.
    pub(crate) fn cancel(&mut self, c: u32, why: Plain) -> bool
        ensures took { result ≡ contexts.takes_effect self.old c }
        ensures after { self.new ≡ contexts.cancel c why self.old }
    {
        let Some(place) = place_of(&self.places, c) else {
            return false;
        };
        if self.off(c).is_some() {
            return false;
        }
        self.kept[place.key].reason = Some(why);
        self.reasons += 1;
        true
    }

    /// One more context, under this parent.
    pub(crate) fn make(&mut self, parent: Option<u32>, protected: bool) -> Result<u32, Full>
        requires countable { length self.old < 2 ^ 32 - 1 }
        requires live { ForSome parent (λ p. contexts.is_live self.old p ≡ true) }
        ensures number { result_ok result ≡ (contexts.make (contexts.new_context parent protected) self.old).number }
        ensures after { self.new ≡ (contexts.make (contexts.new_context parent protected) self.old).contexts }
    {
        if self.places.len() >= MOST_CONTEXTS {
            return Err(Full);
        }
        let above = match parent {
            Some(number) => place_of(&self.places, number),
            None => None,
        };
        let jump = jump_of(&self.kept, above, protected);
        let number = self.made;
        let key = self.kept.insert_reserved(KeptContext {
            number,
            parent: above,
            protected,
            reason: None,
            jump,
        });
        self.places.push_back_reserved(ContextKey { number, key });
        self.made += 1;
        Ok(number)
    }

    /// The context ends, and is forgotten.
    pub(crate) fn end(&mut self, c: u32)
        requires live { contexts.is_live self.old c ≡ true }
        requires childless { HasNoLiveChild self.old c }
        ensures { self.new ≡ without c self.old }
    {
        let index = self.places.partition_point(|place| place.number < c);
        let place = self.places.remove(index).unwrap();
        let gone = self.kept.remove(place.key);
        self.reasons -= u32::from(gone.reason.is_some());
    }
}
