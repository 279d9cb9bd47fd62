ghost use Rattle.std.specs.Prelude.{◌≡◌};
ghost use Rattle.sc_cqljson.specs.Operators.{operator_named, takes};

use sc_expr::CompOp;

/// What an object with a member `op` calls (OGC 21-065r2, Annex B).
#[derive(Clone, Copy, Debug, PartialEq, Eq)]
pub enum Operator {
    And,
    Or,
    Not,
    Compare(CompOp),
    IsNull,
    Between,
    In,
    Like,
    CaseI,
    Intersects,
}

/// The operator of a name.
#[tactic(auto, unfolding(crate::specs::Operators::operator_named))]
pub(crate) fn operator_named(name: &[u8]) -> Option<Operator>
    ensures { result ≡ operator_named name.now }
{
    if name == b"and".as_slice() {
        Some(Operator::And)
    } else if name == b"or".as_slice() {
        Some(Operator::Or)
    } else if name == b"not".as_slice() {
        Some(Operator::Not)
    } else if name == b"=".as_slice() {
        Some(Operator::Compare(CompOp::Eq))
    } else if name == b"<>".as_slice() {
        Some(Operator::Compare(CompOp::Ne))
    } else if name == b"<".as_slice() {
        Some(Operator::Compare(CompOp::Lt))
    } else if name == b">".as_slice() {
        Some(Operator::Compare(CompOp::Gt))
    } else if name == b"<=".as_slice() {
        Some(Operator::Compare(CompOp::Le))
    } else if name == b">=".as_slice() {
        Some(Operator::Compare(CompOp::Ge))
    } else if name == b"isNull".as_slice() {
        Some(Operator::IsNull)
    } else if name == b"between".as_slice() {
        Some(Operator::Between)
    } else if name == b"in".as_slice() {
        Some(Operator::In)
    } else if name == b"like".as_slice() {
        Some(Operator::Like)
    } else if name == b"casei".as_slice() {
        Some(Operator::CaseI)
    } else if name == b"s_intersects".as_slice() {
        Some(Operator::Intersects)
    } else {
        None
    }
}

/// Whether an operator may have so many arguments.
pub(crate) fn takes(operator: Operator, count: usize) -> bool
    ensures { result ≡ takes operator count }
{
    match operator {
        Operator::And | Operator::Or => 2 <= count,
        Operator::Not | Operator::IsNull | Operator::CaseI => count == 1,
        Operator::Compare(_) | Operator::In | Operator::Like | Operator::Intersects => count == 2,
        Operator::Between => count == 3,
    }
}
