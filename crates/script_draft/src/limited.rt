//! Numbers within limits.

ghost use Rattle.std.specs.Prelude.{◌≡◌, ◌≤◌, true, IfOk};
ghost use Rattle.spec_script.specs.Reads as model;
ghost use Rattle.script_draft.specs.Ahead.{has_tree, tree_ahead, IsPast};
ghost use Rattle.script_draft.specs.Readings.{Finds};

use crate::cursor::Cursor;
use script_forms::ScriptFault;

/// The number that comes next, which is to be at least `least` and at most `most`.
///
/// # Errors
/// `Shape` where no number comes next, `Size` where it is outside these limits.
pub fn number_within(cursor: &mut Cursor, least: u32, most: u32) -> Result<u32, ScriptFault>
    requires { has_tree cursor.old ≡ true }
    ensures past { IfOk result (λ _. IsPast cursor.old cursor.new) }
    ensures limits { IfOk result (λ number. (least ≤ number) × (number ≤ most)) }
    ensures reads { Finds (λ number. number) result (model.number_within (record { least = least; most = most }) (tree_ahead cursor.old)) }
{
    let number = cursor.number()?;
    match u32::try_from(number.number) {
        Ok(value) if least <= value && value <= most => Ok(value),
        _ => Err(ScriptFault::Size(number.at)),
    }
}
