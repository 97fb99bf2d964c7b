//! Two to eight exceptions that were raised together, without memory.
//!
//! The places of an array are filled from the front, and a number says how many are; all places behind
//! them hold one and the same blank member, so that two groups of the same members are equal. No two
//! members have one serial. The record that clauses see is `Several`; that it is met is the invariant
//! of `Members`, and callers learn it by the clauses of `Members::as_slice`.
ghost use Rattle.std.specs.Prelude.{◌≡◌, ◌≢◌, ◌<◌, ◌≤◌, [], ◌∷◌, ◌++◌, ◌||◌, length, true, false, All};

use crate::{Member, Plain};
use std::marker::Model;

/// What stands in a place that no member has.
const BLANK: Member = Member {
    serial: 0,
    what: Plain::Exit,
};

/// Two to eight exceptions with distinct serials, and whether others were left out.
#[derive(Clone, Copy)]
pub struct Members {
    places: [Member; 8],
    count: usize,
    cut: bool,
}

impl Model for Members {
    ghost use Rattle.eio_value.specs.Several.{Several};

    ghost Value = { Several };

    ghost use Rattle.eio_value.specs.MembersInside.{several_of, IsFilled, filled, filled-several_of};

    ghost view = { several_of };

    ghost invariant = { IsFilled };

    ghost inverse = { filled };

    ghost inverse_ok = { filled-several_of };
}

impl Members {
    ghost use Rattle.eio_value.specs.Several.{HasOtherSerial, AreDistinct};

    /// These two, none left out.
    pub fn pair(first: Member, second: Member) -> Members
        requires { first.serial ≢ second.serial }
        ensures { result ≡ record { members = first ∷ second ∷ []; cut = false } }
    {
        Members {
            places: [first, second, BLANK, BLANK, BLANK, BLANK, BLANK, BLANK],
            count: 2,
            cut: false,
        }
    }

    /// The members, in order of arrival.
    pub fn as_slice(&self) -> &[Member]
        ensures members { result.now ≡ self.now.members }
        ensures least { 2 ≤ length self.now.members }
        ensures most { length self.now.members ≤ 8 }
        ensures distinct { AreDistinct self.now.members }
    {
        &self.places[..self.count]
    }

    /// Whether others were left out.
    pub fn is_cut(&self) -> bool
        ensures { result ≡ self.now.cut }
    {
        self.cut
    }

    /// The same members, and others were left out where they were before or this says so.
    pub(crate) fn cut_where(self, others_left_out: bool) -> Members
        ensures { result ≡ record { members = self.members; cut = self.cut || others_left_out } }
    {
        Members {
            places: self.places,
            count: self.count,
            cut: self.cut || others_left_out,
        }
    }

    /// One more where there is room for it; else it is left out.
    pub fn with(self, member: Member) -> Members
        requires { All (HasOtherSerial member.serial) self.members }
        ensures added { length self.members < 8 → result ≡ record { members = self.members ++ member ∷ []; cut = self.cut } }
        ensures left_out { 8 ≤ length self.members → result ≡ record { members = self.members; cut = true } }
    {
        let mut places = self.places;
        if self.count < 8 {
            places[self.count] = member;
            Members {
                places,
                count: self.count + 1,
                cut: self.cut,
            }
        } else {
            Members {
                places,
                count: self.count,
                cut: true,
            }
        }
    }
}
