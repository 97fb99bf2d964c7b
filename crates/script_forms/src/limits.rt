//! How many of a thing the scripts of a version of the notation may have, and their runs.
//!
//! The numbers are those of the definitions, as the clause of [`limits_of`] says.

ghost use Rattle.std.specs.Prelude.{◌≡◌};
ghost use Rattle.spec_script.specs.Limits.{limits_of};

use spec_script::Limits;

/// The limits of scripts of this version. Those of the first are the rest.
#[tactic(auto, unfolding(spec_script::specs::Limits::limits_of))]
pub fn limits_of(version: u32) -> Limits
    ensures { result ≡ limits_of version }
{
    match version {
        _ => Limits {
            declarations: 64,
            bodies: 8,
            fibers: 1024,
            contexts: 4096,
            jobs: 1024,
        },
    }
}
