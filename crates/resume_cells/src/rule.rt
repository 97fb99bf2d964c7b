//! The rule that the words and the seats keep, and the kinds of step. All of it exists in proofs alone.

ghost use Rattle.resume_cells.specs.declared.view.Deed.TheVariants.{Wake, Cancel};

use crate::View;
use atomic_table::{Join, Play, Split, TableRule};

/// What the rule is told when the cells are made.
#[derive(Drop)]
pub(crate) struct Plan {
    pub(crate) cells: usize,
    pub(crate) seats: usize,
    /// How many cells each seat owns.
    pub(crate) each: usize,
}

/// The rule: there is one log of all marks that all words and all seats fit.
pub(crate) struct Law;

impl TableRule<(), View, Plan> for Law {
    ghost use Rattle.resume_cells.specs.Rule.{Keeps};
    ghost use Rattle.resume_cells.specs.Views.{first_view};

    ghost holds = { Keeps };

    ghost first = { λ plan. first_view plan.each };
}

/// A wait begins.
pub(crate) struct Begins;

impl Play<(), View> for Begins {
    ghost use Rattle.resume_cells.specs.Plays.{Arms};

    ghost then = { Arms };
}

/// A wait is decided: its fiber goes on.
pub(crate) struct Wakes;

impl Play<(), View> for Wakes {
    ghost use Rattle.resume_cells.specs.Plays.{Decides};

    ghost then = { Decides Wake };
}

/// A wait is decided: its fiber was cancelled.
pub(crate) struct Cancels;

impl Play<(), View> for Cancels {
    ghost use Rattle.resume_cells.specs.Plays.{Decides};

    ghost then = { Decides Cancel };
}

/// The first seat deals the next one.
pub(crate) struct Deals;

impl Split<View> for Deals {
    ghost use Rattle.resume_cells.specs.Views.{dealing, dealt_to};

    ghost left = { dealing };

    ghost right = { dealt_to };
}

/// The first seat takes in the next one.
pub(crate) struct TakesIn;

impl Join<View> for TakesIn {
    ghost use Rattle.resume_cells.specs.Views.{spent, taking_in};

    ghost both = { taking_in };

    ghost spent = { spent };
}
