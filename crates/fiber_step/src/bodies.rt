//! Where the bodies of a script begin: a fiber that runs one begins there.

ghost use Rattle.std.specs.Prelude.{◌≡◌, ◌<◌, length, Some, slice_get};
ghost use Rattle.fiber_step.specs.Having.{HasStatements};
ghost use Rattle.script_forms.specs.Flat.{nodes_of};
ghost use Rattle.script_code.specs.Standing.{block_at};

use script_code::Script;

/// The number of the first node of a body. Main is the first body.
pub fn first_node(script: &Script, body: u8) -> u32
    requires { body < length script.now.bodies }
    ensures block { slice_get script.now.bodies body ≡ Some (block_at (nodes_of script.now) result) }
    ensures statements { HasStatements (nodes_of script.now) result }
{
    // For the proof alone: a law of scripts, by which the statements of the body stand at its node.
    script.is_sound();
    script.body(body)
}
