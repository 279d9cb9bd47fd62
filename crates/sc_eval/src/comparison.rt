ghost use Rattle.std.specs.Prelude.{◌≡◌};
ghost use Rattle.std.specs.Ordering.{int_cmp};
ghost use Rattle.sc_eval.specs.Property.{seen};
ghost use Rattle.sc_eval.specs.Comparison.{compared, holds, instant_of, known, not3, order_of, truth_of};

use crate::value::Value;
use sc_base::Text;
use sc_expr::{CompOp, Truth3};
use sc_time::{Instant, read_instant};
use std::cmp::Ordering;

fn compare_instants(a: Instant, b: Instant) -> Ordering
    ensures { result ≡ int_cmp a b }
{
    a.nanoseconds().cmp(&b.nanoseconds())
}

/// The instant that a text is, if it is one (RFC 3339 §5.6).
pub fn instant_of(text: &Text) -> Option<Instant>
    ensures { result ≡ instant_of text.now }
{
    read_instant(text.bytes()).ok()
}

/// Which of two values is less; none where they have no order.
#[tactic(auto, unfolding(crate::specs::Comparison::order_of))]
fn order_of(a: &Value, b: &Value) -> Option<Ordering>
    ensures { result ≡ order_of (seen a.now) (seen b.now) }
{
    match (a, b) {
        (Value::Number(a), Value::Number(b)) => Some(a.compare(b)),
        (Value::Text(a), Value::Text(b)) => Some(a.cmp(b)),
        (Value::Truth(a), Value::Truth(b)) => Some(a.cmp(b)),
        (Value::Moment(a), Value::Moment(b)) => Some(compare_instants(*a, *b)),
        (Value::Moment(a), Value::Text(b)) => match instant_of(b) {
            Some(b) => Some(compare_instants(*a, b)),
            None => None,
        },
        (Value::Text(a), Value::Moment(b)) => match instant_of(a) {
            Some(a) => Some(compare_instants(a, *b)),
            None => None,
        },
        _ => None,
    }
}

fn holds(op: CompOp, order: Ordering) -> bool
    ensures { result ≡ holds op order }
{
    match op {
        CompOp::Eq => order.is_eq(),
        CompOp::Ne => order.is_ne(),
        CompOp::Lt => order.is_lt(),
        CompOp::Gt => order.is_gt(),
        CompOp::Le => order.is_le(),
        CompOp::Ge => order.is_ge(),
    }
}

/// A truth that is known.
pub(crate) fn known(truth: bool) -> Truth3
    ensures { result ≡ known truth }
{
    if truth { Truth3::True } else { Truth3::False }
}

pub(crate) fn not3(truth: Truth3) -> Truth3
    ensures { result ≡ not3 truth }
{
    match truth {
        Truth3::True => Truth3::False,
        Truth3::False => Truth3::True,
        Truth3::Unknown => Truth3::Unknown,
    }
}

/// How two values compare; unknown where they have no order.
pub(crate) fn compared(op: CompOp, a: &Value, b: &Value) -> Truth3
    ensures { result ≡ compared op (seen a.now) (seen b.now) }
{
    match order_of(a, b) {
        None => Truth3::Unknown,
        Some(order) => known(holds(op, order)),
    }
}
