ghost use Rattle.std.specs.Prelude.{◌≡◌, IfOk, OnErr, IsTrue};
ghost use Rattle.sc_eval.specs.Property.{seen};
ghost use Rattle.sc_eval.specs.Comparison.{compared};
ghost use Rattle.sc_eval.specs.Meaning.{fold_value, folded, is_absent, is_folding, value_in};
ghost use Rattle.sc_eval.specs.Held.{held};

use crate::comparison::compared;
use crate::property::value_of;
use crate::value::Value;
use sc_base::Text;
use sc_expr::{CompOp, Scalar, Truth3};
use sc_item::Item;
use std::alloc::{AllocError, Global};

/// The value of a scalar in an item: lent by one of them, or a text that was folded.
#[derive(Drop)]
pub(crate) enum Operand<'a> {
    Lent(Value<'a>),
    Folded(Text),
}

fn compared_with(op: CompOp, a: &Value, b: &Operand) -> Truth3
    ensures { result ≡ compared op (seen a.now) (held b.now) }
{
    match b {
        Operand::Lent(value) => compared(op, a, value),
        Operand::Folded(text) => compared(op, a, &Value::Text(text)),
    }
}

/// How two operands compare.
pub(crate) fn compared_operands(op: CompOp, a: &Operand, b: &Operand) -> Truth3
    ensures { result ≡ compared op (held a.now) (held b.now) }
{
    match a {
        Operand::Lent(value) => compared_with(op, value, b),
        Operand::Folded(text) => compared_with(op, &Value::Text(text), b),
    }
}

/// Whether there is no value.
pub(crate) fn is_absent(operand: &Operand) -> bool
    ensures { result ≡ is_absent (held operand.now) }
{
    match operand {
        Operand::Lent(Value::Absent) => true,
        _ => false,
    }
}

/// The full default case folding of a text.
#[tactic(auto, unfolding(crate::specs::Meaning::folded))]
pub(crate) fn folded_text(alloc: Global, text: &str) -> Result<Text, AllocError>
    ensures { IfOk result (λ t. t ≡ folded text.now) }
{
    Ok(Text::from_string(caseless::default_case_fold_str(alloc, text)?))
}

/// A value without regard to case.
fn folded_operand<'a>(alloc: Global, operand: &Operand) -> Result<Operand<'a>, AllocError>
    ensures { IfOk result (λ o. held o ≡ fold_value (held operand.now)) }
{
    match operand {
        Operand::Folded(text) => Ok(Operand::Folded(folded_text(alloc, text.as_str())?)),
        Operand::Lent(Value::Text(text)) => {
            Ok(Operand::Folded(folded_text(alloc, text.as_str())?))
        }
        Operand::Lent(Value::Absent) => Ok(Operand::Lent(Value::Absent)),
        Operand::Lent(_) => Ok(Operand::Lent(Value::Other)),
    }
}

/// The value of a scalar in an item. Memory is taken for CASEI alone.
pub(crate) fn value_in<'a>(
    alloc: Global,
    scalar: &'a Scalar,
    item: &'a Item,
) -> Result<Operand<'a>, AllocError>
    ensures value { IfOk result (λ o. held o ≡ value_in item.now scalar.now) }
    ensures memory { OnErr result (IsTrue (is_folding scalar.now)) }
{
    match scalar {
        Scalar::Prop(name) => Ok(Operand::Lent(value_of(name, item))),
        Scalar::Text(text) => Ok(Operand::Lent(Value::Text(text))),
        Scalar::Number(number) => Ok(Operand::Lent(Value::Number(number))),
        Scalar::Truth(truth) => Ok(Operand::Lent(Value::Truth(*truth))),
        Scalar::Moment(moment) => Ok(Operand::Lent(Value::Moment(*moment))),
        Scalar::Folded(inner) => {
            let inner = value_in(alloc, inner.get(), item)?;
            folded_operand(alloc, &inner)
        }
    }
}
