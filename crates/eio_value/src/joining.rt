//! What two exceptions become that were raised together.
ghost use Rattle.std.specs.Prelude.{◌≡◌, ◌==◌, [], ◌∷◌, ◌++◌, filter};
ghost use Rattle.std.specs.List.{list_any};
ghost use Rattle.eio_value.specs.Several.{AreDistinct, first_eight};
ghost use Rattle.eio_value.specs.Joining.{lone_serial, are_one_raise, is_new_to, combine};
ghost use Rattle.eio_value.specs.Exceptions.{reason};

use crate::{Member, Members, Plain, Raised};

/// The single exception, the reason of a cancellation, or the first of several.
pub fn reason(raised: &Raised) -> Plain
    ensures { result ≡ reason raised.now }
{
    match raised {
        Raised::One(member) | Raised::Cancelled(member) => member.what,
        Raised::Many(members) => members.as_slice()[0].what,
    }
}

/// What `a` and then `b` become together.
///
/// One raise on both sides is that raise, and what is cancelled gives way to what isn't. All others
/// are kept in order of arrival, each once; those behind the eighth are left out, and the result says so.
pub fn combine(a: Raised, b: Raised) -> Raised
    ensures { result ≡ combine a b }
{
    if are_one_raise(&a, &b) {
        return a;
    }
    match (&a, &b) {
        (_, Raised::Cancelled(_)) => a,
        (Raised::Cancelled(_), _) => b,
        (Raised::One(first), Raised::One(second)) => Raised::Many(Members::pair(*first, *second)),
        (Raised::One(first), Raised::Many(others)) => Raised::Many(behind(*first, others)),
        (Raised::Many(members), Raised::One(member)) => {
            Raised::Many(with_new(*members, &[*member]))
        }
        (Raised::Many(members), Raised::Many(others)) => {
            let members = members.cut_where(others.is_cut());
            Raised::Many(with_new(members, others.as_slice()))
        }
    }
}

/// Whether both stand alone, with one serial.
fn are_one_raise(a: &Raised, b: &Raised) -> bool
    ensures { result ≡ are_one_raise a.now b.now }
{
    match (lone_serial(a), lone_serial(b)) {
        (Some(first), Some(second)) => first == second,
        _ => false,
    }
}

/// The serial of what stands alone.
fn lone_serial(raised: &Raised) -> Option<u64>
    ensures { result ≡ lone_serial raised.now }
{
    match raised {
        Raised::One(member) | Raised::Cancelled(member) => Some(member.serial),
        Raised::Many(_) => None,
    }
}

/// Whether this raise is among these members.
fn is_among(members: &[Member], member: &Member) -> bool
    ensures { result ≡ list_any (λ other. other.serial == member.now.serial) members.now }
{
    members.iter().any(|other| other.serial == member.serial)
}

/// This one, and behind it those of the others that are other raises.
fn behind(first: Member, others: &Members) -> Members
    ensures { result ≡ first_eight (first ∷ filter (is_new_to (first ∷ [])) others.now.members) others.now.cut }
{
    let cut = others.is_cut();
    let others = others.as_slice();
    if others[0].serial == first.serial {
        with_new(Members::pair(first, others[1]).cut_where(cut), &others[2..])
    } else {
        with_new(Members::pair(first, others[0]).cut_where(cut), &others[1..])
    }
}

/// These members, and behind them those of the others that are new.
fn with_new(members: Members, others: &[Member]) -> Members
    requires { AreDistinct others.now }
    ensures { result ≡ first_eight (members.members ++ filter (is_new_to members.members) others.now) members.cut }
{
    let mut joined = members;
    for other in others {
        if !is_among(members.as_slice(), other) {
            joined = joined.with(*other);
        }
    }
    joined
}
