//! What a move tells, before it has its stamp. It is large, so that calls write it in its place and don't hand it on.

ghost use Rattle.std.specs.Prelude.{◌≡◌};
ghost use Rattle.domain_core.specs.Turns.{line_told};

use trace_lines::{Did, Line, Said2};

/// The fiber that called, what it did, and what it was answered.
#[derive(Clone, Copy)]
pub struct Told {
    pub fiber: u32,
    pub did: Did,
    pub reply: Said2,
}

impl Told {
    /// What stands there before a move was made.
    pub fn nothing() -> Told {
        Told {
            fiber: 0,
            did: Did::Limit,
            reply: Said2::Nothing,
        }
    }

    /// The line of it, with this stamp, of the domain with this number.
    pub fn line(&self, stamp: u64, domain: u8) -> Line
        ensures { result ≡ line_told stamp domain self.now }
    {
        Line {
            stamp,
            domain,
            fiber: self.fiber,
            did: self.did,
            reply: self.reply,
        }
    }
}
