//! The script that `mock` runs: of several refusals of an input the first is answered, its size, its tree, its script, a further body, and
//! a form that isn't built.
ghost use Rattle.std.specs.Prelude.{◌≡◌, Ok, IfOk, IfErr};
ghost use Rattle.mock_backend.specs.Today.{built_today};
ghost use Rattle.spec_script.specs.Inputs as inputs;
ghost use Rattle.script_input.specs.Refusals.{Refuses};

use script_code::Script;
use script_input::{InputFault, Kind, Refusal, input_script};
use spec_script::Feature;
use std::alloc::Global;

/// The script that an input is, where `mock` runs it.
///
/// # Errors
/// The refusal of the input; `NoMemory` where memory runs out.
pub(crate) fn mocked_script(alloc: Global, bytes: &[u8]) -> Result<Script, InputFault>
    ensures ok { IfOk result (λ script. inputs.mocked_script built_today bytes.now ≡ Ok script) }
    ensures fault { IfErr result (λ fault. Refuses fault (inputs.mocked_script built_today bytes.now)) }
{
    let script = input_script(alloc, bytes)?;
    if let Some(at) = script.domain_only() {
        return Err(InputFault::Refused(Refusal {
            kind: Kind::DomainOnly,
            at,
        }));
    }
    let built = [
        Feature::FirstForms,
        Feature::Reading,
        Feature::Steps,
        Feature::Exceptions,
        Feature::Switches,
        Feature::Groups,
    ];
    if let Some(at) = script.unbuilt(&built) {
        return Err(InputFault::Refused(Refusal {
            kind: Kind::Unbuilt,
            at,
        }));
    }
    Ok(script)
}
