//! The variables that a job takes with it. The theorem is the clause `reads` of [`captured`].

ghost use Rattle.std.specs.Prelude.{◌≡◌, ◌<◌, true, [], length, map, IfOk};
ghost use Rattle.spec_script.specs.Captures as model;
ghost use Rattle.spec_script.specs.Limits.{most_captured};
ghost use Rattle.script_draft.specs.Ahead.{ahead, has_tree, tree_ahead, IsPast, IsBehind};
ghost use Rattle.script_statements.specs.Captured.{Captures, captured_next};
ghost use Rattle.script_draft.specs.Names.{named_of};
ghost use Rattle.script_draft.specs.Readings.{Finds};

use script_draft::{Cursor, Kind, Named, Scope, named_in};
use script_forms::{Numbers, ScriptFault};

/// The most variables that a job takes with it.
const MOST_CAPTURED: usize = 8;

/// The slots of the variables that a job takes with it, and the names that its block sees.
#[derive(Drop)]
pub(crate) struct Job<'t, 'd> {
    pub(crate) slots: Numbers,
    pub(crate) inner: Scope<'t, 'd>,
}

/// The variables of the list that comes next.
///
/// # Errors
/// The fault of the first refused node of the list.
pub(crate) fn captured<'t, 'd>(
    cursor: &mut Cursor<'t>,
    scope: &Scope<'t, 'd>,
) -> Result<Job<'t, 'd>, ScriptFault>
    requires { has_tree cursor.old ≡ true }
    ensures past { IfOk result (λ _. IsPast cursor.old cursor.new) }
    ensures reads { Captures result scope.now (model.captured scope.now (tree_ahead cursor.old)) }
{
    if cursor.open().is_none() {
        return Err(ScriptFault::Shape(cursor.place()));
    }
    captured_here(cursor, scope)
}

/// The variables up to the end of the list that the cursor stands in.
fn captured_here<'t, 'd>(
    cursor: &mut Cursor<'t>,
    scope: &Scope<'t, 'd>,
) -> Result<Job<'t, 'd>, ScriptFault>
    ensures behind { IfOk result (λ _. IsBehind cursor.old cursor.new) }
    ensures reads { Captures result scope.now (model.captured_behind scope.now [] (ahead cursor.old)) }
{
    let mut slots = Vec::new(scope.alloc());
    let mut names = Vec::new(scope.alloc());
    while cursor.has_tree() {
        let number = names.len() as u32;
        let variable = captured_next(cursor, scope, &names)?;
        slots.push(variable.number)?;
        names.push(Named { number, ..variable })?;
    }
    cursor.close();
    Ok(Job {
        slots: Numbers::new(slots),
        inner: scope.job(names),
    })
}

/// The variable that comes next, where these are taken already.
fn captured_next<'t>(
    cursor: &mut Cursor<'t>,
    scope: &Scope<'t, '_>,
    taken: &[Named<'t>],
) -> Result<Named<'t>, ScriptFault>
    requires { has_tree cursor.old ≡ true }
    ensures past { IfOk result (λ _. IsPast cursor.old cursor.new) }
    ensures room { IfOk result (λ _. length taken.now < most_captured) }
    ensures reads { Finds named_of result (captured_next scope.now (map named_of taken.now) (tree_ahead cursor.old)) }
{
    let Some(name) = cursor.word_ahead() else {
        return Err(ScriptFault::Shape(cursor.place()));
    };
    if taken.len() >= MOST_CAPTURED {
        return Err(ScriptFault::Size(name.at));
    }
    if named_in(taken, name.word).is_some() {
        return Err(ScriptFault::Twice(name.at));
    }
    let number = scope.used(Kind::Variable, cursor)?;
    Ok(Named {
        name: name.word,
        kind: Kind::Variable,
        number,
    })
}
