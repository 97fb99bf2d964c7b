//! Laws of what one domain is between two moves.

ghost use Rattle.law_domain.specs.Sound.Conditions.{MovesMayCall, SwitchesAreSound};
ghost use Rattle.law_domain.specs.Sound.Laws.{BodyEndsAlone, BuiltSettle, FibersRunInLive, HasRoomBehind};
ghost use Rattle.law_domain.specs.Sound.Laws.{KeepsSound, OpensSound, ScopesEndAlone, ScopesSettle};

/// What a fiber has gone into and not left is seen of its work: silent statements go into nothing and out of nothing, and
/// an exception stops at each end. So its next call is made at the end of the innermost scope, or within all of them.
pub fn scopes_settle()
    ensures { ScopesSettle }
{}

/// A fiber whose work has the built forms alone makes a call of these forms, with such work behind it, whatever came.
pub fn built_forms_settle()
    ensures { BuiltSettle }
{}

/// A domain that has just started is sound.
pub fn opening_is_sound()
    ensures { OpensSound }
{}

/// A domain stays sound with each move of its own that doesn't halt it, as long as its script has the built forms alone.
pub fn moves_keep_sound()
    ensures { KeepsSound }
{}

/// Whoever goes out of a scope is alone there: no live context lies in that of a block whose end is called, of a switch
/// that nobody is attached to or of a group of which no branch is left, and no other fiber runs in it. So it is of the
/// first context when the body ends.
pub fn scopes_end_alone()
    ensures scopes { ScopesEndAlone }
    ensures body { BodyEndsAlone }
{}

/// A fiber runs in a live context until it ends.
pub fn fibers_run_in_live_contexts()
    ensures { FibersRunInLive }
{}

/// While a fiber moves there is room for it in the ready list.
pub fn ready_list_has_room()
    ensures { HasRoomBehind }
{}

/// What code may go by when the fiber at the head of the ready list calls: the call is one of the built forms, the fiber
/// stands at the end that it calls, what it names there was made and is live, and what ends with it is left by all others.
pub fn moves_may_call()
    ensures { MovesMayCall }
{}

/// A switch that isn't finished runs in a live context, and nobody is attached to it who wasn't made.
pub fn switches_are_sound()
    ensures { SwitchesAreSound }
{}
