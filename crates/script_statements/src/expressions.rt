//! Expressions: a number, a text, a variable, `(unit)`, or an operator on two expressions. The theorem is the clause `reads` of
//! [`item`].

ghost use Rattle.std.specs.Prelude.{◌≡◌, [], ◌∷◌, ◌++◌, true, false, IfOk, IfErr, OnOk, None, option_map};
ghost use Rattle.spec_script.specs.Expressions as model;
ghost use Rattle.spec_script.specs.Forms.{expression_head};
ghost use Rattle.script_draft.specs.Ahead.{ahead, has_tree, tree_ahead, tree_count, list_at, IsPast, IsBehind};
ghost use Rattle.script_forms.specs.Flat.{flat_expression, flat_expressions};
ghost use Rattle.script_forms.specs.Calls.{operator_of};
ghost use Rattle.script_statements.specs.ExpressionHeads.{expression_head_of, operand_count, operands};
ghost use Rattle.script_forms.specs.declared.node.Node.TheVariants.{Unit};
ghost use Rattle.script_forms.specs.declared.fault.ScriptFault.TheVariants.{NoMemory};
ghost use Rattle.script_draft.specs.Readings.{Grows};

use script_draft::{Cursor, Draft, Kind, Scope, Word};
use script_forms::{Node, Operator, ScriptFault, begun};
use spec_script::Feature;

/// What an expression's word begins.
#[derive(Clone, Copy)]
pub(crate) enum ExpressionHead {
    Unit,
    Operator(Operator),
}

/// What the words of expressions begin.
const EXPRESSIONS: [(&[u8], ExpressionHead); 5] = [
    (b"unit", ExpressionHead::Unit),
    (b"plus", ExpressionHead::Operator(Operator::Plus)),
    (b"minus", ExpressionHead::Operator(Operator::Minus)),
    (b"same", ExpressionHead::Operator(Operator::Same)),
    (b"less", ExpressionHead::Operator(Operator::Less)),
];

/// What a word begins, if it begins an expression.
#[tactic(auto, using(crate::proofs::ExpressionsFound::expression_found))]
fn expression_head(word: &[u8]) -> Option<ExpressionHead>
    ensures { option_map expression_head_of result ≡ expression_head word.now }
{
    begun(&EXPRESSIONS, word)
}

/// A number, a text, or a variable.
fn leaf(cursor: &mut Cursor, draft: &mut Draft, scope: &Scope) -> Result<(), ScriptFault>
    requires tree { has_tree cursor.old ≡ true }
    requires leaf { list_at (tree_ahead cursor.old) ≡ None }
    ensures past { IfOk result (λ _. IsPast cursor.old cursor.new) }
    ensures reads { Grows result (model.item scope.now false (tree_ahead cursor.old)) (λ at. flat_expression) draft.old draft.new }
{
    if let Some(number) = cursor.number_ahead() {
        cursor.pass();
        draft.push(Node::Number(number.number))?;
        return Ok(());
    }
    if let Some(text) = cursor.text_ahead() {
        cursor.pass();
        let id = draft.text(text.text)?;
        draft.push(Node::Text(id))?;
        return Ok(());
    }
    let slot = scope.used(Kind::Variable, cursor)?;
    draft.push(Node::Variable(slot))?;
    Ok(())
}

/// The expression that comes next; `full` says that as many stand before it as may be.
///
/// # Errors
/// The fault of its first refused node.
#[cycle(expressions)]
pub(crate) fn item(
    cursor: &mut Cursor,
    draft: &mut Draft,
    scope: &Scope,
    full: bool,
) -> Result<(), ScriptFault>
    requires { has_tree cursor.old ≡ true }
    ensures past { IfOk result (λ _. IsPast cursor.old cursor.new) }
    ensures reads { Grows result (model.item scope.now full (tree_ahead cursor.old)) (λ at. flat_expression) draft.old draft.new }
{
    if let Some(head) = cursor.enter() {
        return operation(cursor, draft, scope, full, &head);
    }
    if let Some(at) = cursor.list_ahead() {
        return Err(ScriptFault::Shape(at));
    }
    if full {
        return Err(ScriptFault::Size(cursor.place()));
    }
    leaf(cursor, draft, scope)
}

/// The rest of an expression behind the word of its list.
#[cycle(expressions)]
pub(crate) fn operation(
    cursor: &mut Cursor,
    draft: &mut Draft,
    scope: &Scope,
    full: bool,
    head: &Word,
) -> Result<(), ScriptFault>
    ensures behind { IfOk result (λ _. IsBehind cursor.old cursor.new) }
    ensures reads { Grows result (model.operation scope.now full head.now.at (expression_head head.now.word.now) (ahead cursor.old)) (λ at. flat_expression) draft.old draft.new }
{
    let Some(it) = expression_head(head.word) else {
        return Err(ScriptFault::Shape(head.at));
    };
    if cursor.count(3) != operand_count(it) {
        return Err(ScriptFault::Shape(head.at));
    }
    if full {
        return Err(ScriptFault::Size(head.at));
    }
    draft.form(head.at, Feature::Exceptions, false)?;
    match it {
        ExpressionHead::Unit => unit(cursor, draft),
        ExpressionHead::Operator(operator) => operands(cursor, draft, scope, operator),
    }
}

/// The value that no call answers otherwise.
#[tactic(auto, using(script_draft::proofs::Counts::none_ahead))]
fn unit(cursor: &mut Cursor, draft: &mut Draft) -> Result<(), ScriptFault>
    requires { tree_count (ahead cursor.old) ≡ 0 }
    ensures behind { IfOk result (λ _. IsBehind cursor.old cursor.new) }
    ensures node { OnOk result (draft.new ≡ record draft.old { nodes = draft.old.nodes ++ Unit ∷ [] }) }
    ensures fault { IfErr result (λ fault. fault ≡ NoMemory) }
{
    draft.push(Node::Unit)?;
    cursor.close();
    Ok(())
}

/// An operator and its two operands.
#[cycle(expressions)]
#[tactic(auto, using(script_draft::proofs::Counts::some_ahead, script_draft::proofs::Counts::none_ahead, script_draft::proofs::Counts::count_past))]
fn operands(
    cursor: &mut Cursor,
    draft: &mut Draft,
    scope: &Scope,
    operator: Operator,
) -> Result<(), ScriptFault>
    requires { tree_count (ahead cursor.old) ≡ 2 }
    ensures behind { IfOk result (λ _. IsBehind cursor.old cursor.new) }
    ensures reads { Grows result (operands scope.now (operator_of operator) (ahead cursor.old)) (λ at. flat_expression) draft.old draft.new }
{
    draft.push(Node::Operation(operator))?;
    item(cursor, draft, scope, false)?;
    item(cursor, draft, scope, false)?;
    cursor.close();
    Ok(())
}

/// How many operands an expression has.
fn operand_count(head: ExpressionHead) -> usize
    ensures { result ≡ operand_count head }
{
    match head {
        ExpressionHead::Unit => 0,
        ExpressionHead::Operator(_) => 2,
    }
}
