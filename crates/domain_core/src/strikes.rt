//! The strikes that a domain owes for its cancellations, which it makes before anything else.

ghost use Rattle.std.specs.Prelude.{◌≡◌, ◌≢◌, true, false, Some, OnOk};
ghost use Rattle.spec_machine.specs.DutyMoves.{own_duty};
ghost use Rattle.spec_machine.specs.Steps.{strike_by};
ghost use Rattle.domain_core.specs.Answering.{Makes, SameCounts};
ghost use Rattle.domain_core.specs.Conditions.{MayStrike};

use crate::domain::Domain;
use crate::standing::Standing;
use crate::told::Told;
use domain_strikes::Strike;
use eio_value::{NoMemory, Plain, Raised};
use trace_lines::{Did, Said2};

impl Domain {
    /// A strike: a fiber that waits still goes to the back of the ready list, where it raises that it was cancelled, for the reason by which its
    /// context is off. One that was struck before has gone on.
    ///
    /// # Errors
    /// [`NoMemory`] where memory, or the numbers for raises, run out; the domain isn't used again then.
    pub(crate) fn strike(&mut self, strike: Strike, told: &mut Told) -> Result<(), NoMemory>
        requires may { MayStrike self.old strike.fiber }
        ensures makes { OnOk result (Makes (own_duty (strike_by strike.maker strike.fiber)) self.old told.new self.new) }
        ensures same { OnOk result (SameCounts self.old self.new) }
    {
        let fiber = strike.fiber;
        let did = Did::Strike {
            domain: self.number,
            fiber,
        };
        if !awaits_cancel(self.fibers.standing(fiber)) {
            *told = Told {
                fiber: strike.maker,
                did,
                reply: Said2::Lost,
            };
            return Ok(());
        }
        let context = self.fibers.at(fiber).context;
        let why = self.contexts.is_off(context).unwrap_or(Plain::Exit);
        let member = self.new_raise(why)?;
        self.contexts.unwait(fiber);
        self.fibers.throw(fiber, &Raised::Cancelled(member))?;
        self.ready.push_back_reserved(fiber);
        *told = Told {
            fiber: strike.maker,
            did,
            reply: Said2::Won,
        };
        Ok(())
    }
}

/// Whether a fiber that stands so waits for nothing but that it is cancelled.
fn awaits_cancel(standing: Option<Standing>) -> bool
    ensures yes { result ≡ true → standing ≡ Some Standing.AwaitsCancel }
    ensures no { result ≡ false → standing ≢ Some Standing.AwaitsCancel }
{
    // Apart from `strike` for the proof alone, which uses that the pattern fits, or doesn't, where branches have come together.
    match standing {
        Some(Standing::AwaitsCancel) => true,
        _ => false,
    }
}
