//! A `Wake` in memory, which is told which waits are dead.

ghost use Rattle.std.specs.Prelude.{◌≡◌, true, refl};
ghost use Rattle.std.proofs.Common.{◌∙◌};
ghost use Rattle.wait_list.specs.MemSending.{is_among, woken_stamp};

use eio_value::{Job, Outcome, Waiter, Wake, Woken};

/// What was sent.
#[derive(Clone, Copy)]
pub enum MemSent {
    Nothing,
    Resumed(Waiter, Outcome),
    Started(u8, Job, u64),
}

/// The waits of `dead`, each named by its cell and the stamp with which it was armed, are dead; all others are alive.
#[derive(Drop)]
pub struct MemWake {
    pub dead: Vec<(u32, u64)>,
    pub told: MemSent,
}

impl MemWake {
    /// These waits are dead, and nothing was sent.
    pub fn new(dead: Vec<(u32, u64)>) -> MemWake
        ensures dead { result.dead ≡ dead }
        ensures told { result.told ≡ MemSent.Nothing }
    {
        MemWake {
            dead,
            told: MemSent::Nothing,
        }
    }

    /// The stamp of the wait that was woken; `None` where none was.
    pub fn woken(&self) -> Option<u64>
        ensures { result ≡ woken_stamp self.now.told }
    {
        match &self.told {
            MemSent::Resumed(who, _) => Some(who.armed),
            MemSent::Nothing | MemSent::Started(_, _, _) => None,
        }
    }
}

/// Whether this wait is one of these.
fn is_dead(waits: &[(u32, u64)], who: Waiter) -> bool
    ensures { result ≡ is_among waits.now who.cell who.armed }
{
    waits
        .iter()
        .any(|wait| wait.0 == who.cell && wait.1 == who.armed)
}

impl Wake for MemWake {
    ghost use Rattle.wait_list.specs.MemSending.{sent_of};

    ghost knows = { λ wake. is_among wake.dead.items };

    ghost tells = { λ _. true };

    ghost sent = { λ wake. sent_of wake.told };

    ghost goes_on = { λ a b. b.dead ≡ a.dead };

    ghost stays = { λ wake. refl };

    ghost follows = { λ a b c first second. second ∙ first };

    fn wake(&mut self, who: Waiter, outcome: Outcome) -> Woken {
        if is_dead(self.dead.as_slice(), who) {
            return Woken::Lost;
        }
        self.told = MemSent::Resumed(who, outcome);
        Woken::Won
    }

    fn start(&mut self, domain: u8, job: Job, number: u64) {
        self.told = MemSent::Started(domain, job, number);
    }
}
