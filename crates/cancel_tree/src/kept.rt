//! A context as it is kept while it lives, and where it is kept.

ghost use Rattle.std.specs.Prelude.{◌≡◌, IfSome};
ghost use Rattle.cancel_tree.specs.Places.{place_at, Rise};
ghost use Rattle.cancel_tree.specs.Jumps.{kept_above, kept_towards, JumpsFrom, JumpsUnder};

use eio_value::Plain;
use slab::Slab;
use std::collections::VecDeque;

/// The number of a live context, and the key under which it is kept.
#[derive(Clone, Copy)]
pub(crate) struct ContextKey {
    pub(crate) number: u32,
    pub(crate) key: usize,
}

/// A context further up on the way of another, and how many steps lie between.
#[derive(Clone, Copy)]
pub(crate) struct Jump {
    pub(crate) place: ContextKey,
    pub(crate) length: u32,
}

/// A live context.
#[derive(Clone, Copy)]
pub(crate) struct KeptContext {
    pub(crate) number: u32,
    /// Where the parent is, which lives as long as its children.
    pub(crate) parent: Option<ContextKey>,
    pub(crate) protected: bool,
    /// By which it was itself cancelled.
    pub(crate) reason: Option<Plain>,
    /// None where no cancellation comes down to it.
    pub(crate) jump: Option<Jump>,
}

impl KeptContext {
    /// Where a cancellation comes down from.
    pub(crate) fn above(&self) -> Option<ContextKey>
        ensures { result ≡ kept_above self.now }
    {
        if self.protected { None } else { self.parent }
    }

    /// One step, or a jump that doesn't pass it, towards a context on the way up.
    pub(crate) fn towards(&self, c: u32) -> Option<ContextKey>
        ensures { result ≡ kept_towards c self.now }
    {
        match self.jump {
            Some(jump) if c <= jump.place.number => Some(jump.place),
            _ => self.above(),
        }
    }
}

/// The jump of a child of this context: two jumps up from it where they are equally long, else one step.
fn jump_from(kept: &Slab<KeptContext>, parent: ContextKey) -> Jump
    ensures { JumpsFrom kept.now parent result }
{
    let step = Jump {
        place: parent,
        length: 1,
    };
    // The parent is kept, and so is where its jump leads; were they not, one step would do, so that nobody has to show it.
    let Some(context) = kept.get(parent.key) else {
        return step;
    };
    let Some(first) = context.jump else {
        return step;
    };
    let Some(far) = kept.get(first.place.key) else {
        return step;
    };
    match far.jump {
        Some(second) if first.length == second.length => Jump {
            place: second.place,
            // It is less than how many were made; saturating, so that no invariant has to say so.
            length: first.length.saturating_mul(2).saturating_add(1),
        },
        _ => step,
    }
}

/// The jump of a new context.
pub(crate) fn jump_of(
    kept: &Slab<KeptContext>,
    parent: Option<ContextKey>,
    protected: bool,
) -> Option<Jump>
    ensures { IfSome result (JumpsUnder kept.now parent protected) }
{
    match parent {
        Some(place) if !protected => Some(jump_from(kept, place)),
        _ => None,
    }
}

/// The place of a context, if it is live.
pub(crate) fn place_of(places: &VecDeque<ContextKey>, c: u32) -> Option<ContextKey>
    requires { Rise places.now.items }
    ensures { result ≡ place_at places.now.items c }
{
    let index = places.partition_point(|place| place.number < c);
    match places.get(index) {
        Some(place) if place.number == c => Some(*place),
        _ => None,
    }
}
