//! The steps of declared flows. The theorem is the clause `reads` of [`flow_steps`].
#![tactic(auto, using(script_draft::proofs::Counts::some_ahead, script_draft::proofs::Counts::none_ahead, script_draft::proofs::Counts::count_past))]

ghost use Rattle.std.specs.Prelude.{◌≡◌, true, IfOk, option_map};
ghost use Rattle.spec_script.specs.FlowSteps as model;
ghost use Rattle.spec_script.specs.Reads as reads;
ghost use Rattle.script_draft.specs.Ahead.{ahead, has_tree, tree_ahead, tree_count, IsPast, IsBehind};
ghost use Rattle.script_draft.specs.Readings.{Makes};
ghost use Rattle.script_declarations.specs.FlowStepsRead.{head_of, takes, operand};

use eio_value::{Bytes, FlowStep, TextId};
use script_draft::{Cursor, Draft};
use script_forms::{FlowSteps, ScriptFault};

/// What the word of a step begins.
#[derive(Clone, Copy)]
pub(crate) enum StepHead {
    Data,
    Fault,
    Pause,
}

/// What a word begins, if it begins a step.
fn step_head(word: &[u8]) -> Option<StepHead>
    ensures { option_map head_of result ≡ model.step_head word.now }
{
    match word {
        b"data" => Some(StepHead::Data),
        b"fault" => Some(StepHead::Fault),
        b"pause" => Some(StepHead::Pause),
        _ => None,
    }
}

/// Whether a step has that many items behind its word.
fn takes(head: StepHead, count: usize) -> bool
    ensures { result ≡ takes head count }
{
    match head {
        StepHead::Data | StepHead::Fault => count == 1,
        StepHead::Pause => count == 0,
    }
}

/// The steps of a flow, up to the end of its list.
///
/// # Errors
/// The fault of the first refused step.
pub(crate) fn flow_steps(cursor: &mut Cursor, draft: &mut Draft) -> Result<FlowSteps, ScriptFault>
    ensures behind { IfOk result (λ _. IsBehind cursor.old cursor.new) }
    ensures reads { Makes (λ steps. steps) result (model.steps (ahead cursor.old)) draft.old draft.new }
{
    let mut steps = Vec::new(draft.alloc());
    while cursor.has_tree() {
        steps.push(step(cursor, draft)?)?;
    }
    cursor.close();
    Ok(FlowSteps::new(steps))
}

/// The step that comes next.
fn step(cursor: &mut Cursor, draft: &mut Draft) -> Result<FlowStep, ScriptFault>
    requires { has_tree cursor.old ≡ true }
    ensures past { IfOk result (λ _. IsPast cursor.old cursor.new) }
    ensures reads { Makes (λ step. step) result (model.step (tree_ahead cursor.old)) draft.old draft.new }
{
    let at = cursor.place();
    let Some(word) = cursor.enter() else {
        return Err(ScriptFault::Shape(at));
    };
    let Some(head) = step_head(word.word) else {
        return Err(ScriptFault::Shape(at));
    };
    if !takes(head, cursor.count(2)) {
        return Err(ScriptFault::Shape(at));
    }
    draft.step(at)?;
    operand(cursor, draft, head)
}

/// What stands behind the word of a step.
fn operand(cursor: &mut Cursor, draft: &mut Draft, head: StepHead) -> Result<FlowStep, ScriptFault>
    requires { takes head (tree_count (ahead cursor.old)) ≡ true }
    ensures behind { IfOk result (λ _. IsBehind cursor.old cursor.new) }
    ensures reads { Makes (λ step. step) result (operand head (ahead cursor.old)) draft.old draft.new }
{
    let step = match head {
        StepHead::Data => FlowStep::Data(data(cursor, draft)?),
        StepHead::Fault => FlowStep::Fault(fault(cursor, draft)?),
        StepHead::Pause => FlowStep::Pause,
    };
    cursor.close();
    Ok(step)
}

/// The text that comes next, which isn't empty and stands in the table too.
fn data(cursor: &mut Cursor, draft: &mut Draft) -> Result<Bytes, ScriptFault>
    requires { has_tree cursor.old ≡ true }
    ensures past { IfOk result (λ _. IsPast cursor.old cursor.new) }
    ensures reads { Makes (λ bytes. bytes) result (model.data_of (tree_ahead cursor.old)) draft.old draft.new }
{
    let text = cursor.text()?;
    if text.text.is_empty() {
        return Err(ScriptFault::Shape(text.at));
    }
    draft.text(text.text)?;
    Ok(Bytes::new(text.text.to_vec(draft.alloc())?))
}

/// The number in the table of the text that comes next.
fn fault(cursor: &mut Cursor, draft: &mut Draft) -> Result<TextId, ScriptFault>
    requires { has_tree cursor.old ≡ true }
    ensures past { IfOk result (λ _. IsPast cursor.old cursor.new) }
    ensures reads { Makes (λ id. id) result (reads.text_of (tree_ahead cursor.old)) draft.old draft.new }
{
    let text = cursor.text()?;
    Ok(draft.text(text.text)?)
}
