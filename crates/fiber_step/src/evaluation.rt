//! The values of expressions.
//!
//! An expression stands at the number of its first node, with its operands right behind it. What an operator gives is said by
//! `operated`, and what an expression comes to by the clause `value` of [`evaluate`].

ghost use Rattle.std.specs.Prelude.{◌≡◌, ◌≤◌, IfOk};
ghost use Rattle.fiber_step.specs.Evaluating.{evaluated, operand_value, operand_number, operand_text, operand_values, fitted};
ghost use Rattle.fiber_step.specs.Having.{HasExpression, HasExpressions};
ghost use Rattle.spec_script.specs.Limits.{most_traced};
ghost use Rattle.script_forms.specs.Calls.{operator_of};
ghost use Rattle.script_forms.specs.Flat.{nodes_of};
ghost use Rattle.script_code.specs.Standing.{expression_at, behind_expression, expressions_at, behind_expressions};
ghost use Rattle.spec_fiber.specs.Evaluation as evaluation;
ghost use Rattle.spec_fiber.specs.Evaluation.{value_of, values_of, number_of, text_of};

use crate::variables::Variables;
use eio_value::{Misuse, Operands, TextId, Value};
use script_code::Script;
use script_forms::{Node, Operator};

/// The value of an expression, and the number of the node behind it.
#[derive(Clone, Copy)]
pub struct Operand {
    pub value: Value,
    pub behind: u32,
}

/// What an expression comes to, or what is raised in its place.
///
/// Operands are evaluated from the left, and the first exception ends it. A variable that there is not is unit.
pub fn evaluate(script: &Script, number: u32, variables: &Variables) -> Result<Operand, Misuse>
    requires { HasExpression (nodes_of script.now) number }
    ensures value { operand_value result ≡ value_of variables.now (expression_at (nodes_of script.now) number) }
    ensures behind { IfOk result (λ it. it.behind ≡ behind_expression (nodes_of script.now) number) }
{
    let value = match *script.node(number) {
        Node::Number(z) => Value::Int(z),
        Node::Text(text) => Value::Text(text),
        Node::Variable(slot) => variables.value(slot),
        Node::Unit => Value::Unit,
        Node::Operation(operator) => {
            let left = evaluate(script, number + 1, variables)?;
            let right = evaluate(script, left.behind, variables)?;
            return Ok(Operand {
                value: operated(operator, left.value, right.value)?,
                behind: right.behind,
            });
        }
        _ => unreachable!(),
    };
    Ok(Operand {
        value,
        behind: number + 1,
    })
}

/// The number that an expression comes to, and the number of the node behind it.
#[derive(Clone, Copy)]
pub struct NumberOperand {
    pub number: i64,
    pub behind: u32,
}

/// The number that an expression has to come to, or what is raised in its place: what it raises, or that it is no number.
pub fn evaluate_number(
    script: &Script,
    number: u32,
    variables: &Variables,
) -> Result<NumberOperand, Misuse>
    requires { HasExpression (nodes_of script.now) number }
    ensures value { operand_number result ≡ number_of variables.now (expression_at (nodes_of script.now) number) }
    ensures behind { IfOk result (λ it. it.behind ≡ behind_expression (nodes_of script.now) number) }
{
    match evaluate(script, number, variables) {
        Ok(
            Operand {
                value: Value::Int(number),
                behind,
            },
        ) => Ok(NumberOperand { number, behind }),
        Ok(_) => Err(Misuse::NotNumber),
        Err(raised) => Err(raised),
    }
}

/// The text that an expression comes to, and the number of the node behind it.
#[derive(Clone, Copy)]
pub struct TextOperand {
    pub text: TextId,
    pub behind: u32,
}

/// The text that an expression has to come to, or what is raised in its place: what it raises, or that it is no text.
pub fn evaluate_text(
    script: &Script,
    number: u32,
    variables: &Variables,
) -> Result<TextOperand, Misuse>
    requires { HasExpression (nodes_of script.now) number }
    ensures value { operand_text result ≡ text_of variables.now (expression_at (nodes_of script.now) number) }
    ensures behind { IfOk result (λ it. it.behind ≡ behind_expression (nodes_of script.now) number) }
{
    match evaluate(script, number, variables) {
        Ok(
            Operand {
                value: Value::Text(text),
                behind,
            },
        ) => Ok(TextOperand { text, behind }),
        Ok(_) => Err(Misuse::NotText),
        Err(raised) => Err(raised),
    }
}

/// The values of so many expressions, one behind the other, and the number of the node behind them.
#[derive(Clone, Copy)]
pub struct AllOperands {
    pub values: Operands,
    pub behind: u32,
}

/// What so many expressions come to, evaluated from the left, or what the first one raises that raises.
#[tactic(auto, using(crate::proofs::Traced::none_had, crate::proofs::Traced::all_had, crate::proofs::Traced::first_has))]
pub fn evaluate_all(
    script: &Script,
    count: u8,
    number: u32,
    variables: &Variables,
) -> Result<AllOperands, Misuse>
    requires room { count ≤ most_traced }
    requires expressions { HasExpressions (nodes_of script.now) count number }
    ensures values { operand_values result ≡ values_of variables.now (expressions_at (nodes_of script.now) count number) }
    ensures behind { IfOk result (λ it. it.behind ≡ behind_expressions (nodes_of script.now) count number) }
{
    let mut values = Operands::none();
    let mut behind = number;
    let mut left = count;
    while left > 0 {
        let operand = evaluate(script, behind, variables)?;
        values = values.with(operand.value);
        behind = operand.behind;
        left -= 1;
    }
    Ok(AllOperands { values, behind })
}

/// What an operator gives of two values.
#[tactic(auto, using(crate::proofs::Sums::fitting_of))]
fn operated(operator: Operator, left: Value, right: Value) -> Result<Value, Misuse>
    ensures { evaluated result ≡ evaluation.operated (operator_of operator) left right }
{
    if let Operator::Same = operator {
        return Ok(truth(is_same(left, right)));
    }
    let (Value::Int(x), Value::Int(y)) = (left, right) else {
        return Err(Misuse::NotNumber);
    };
    match operator {
        Operator::Plus => fitting(x.checked_add(y)),
        Operator::Minus => fitting(x.checked_sub(y)),
        Operator::Same => Ok(truth(x == y)),
        Operator::Less => Ok(truth(x < y)),
    }
}

/// Whether two values are of one kind and equal.
fn is_same(left: Value, right: Value) -> bool
    ensures { result ≡ evaluation.is_same left right }
{
    left == right
}

/// 1 for what holds, and 0 for what doesn't.
fn truth(holds: bool) -> Value
    ensures { result ≡ evaluation.truth holds }
{
    Value::Int(if holds { 1 } else { 0 })
}

/// A sum, where it fits in 64 bits.
fn fitting(sum: Option<i64>) -> Result<Value, Misuse>
    ensures { evaluated result ≡ fitted sum }
{
    sum.map(Value::Int).ok_or(Misuse::Overflow)
}
