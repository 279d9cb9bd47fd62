ghost use Rattle.std.specs.Prelude.{◌≡◌, ◌∷◌, [], Some, None, MatchResult, IfOk};
ghost use Rattle.sc_expr.specs.Form.{IsFormedScalar};
ghost use Rattle.sc_expr.specs.Filter.{in_bits};
ghost use Rattle.sc_cqljson.specs.Words.{args_name};
ghost use Rattle.sc_cqljson.specs.declared.operator.Operator.TheVariants.{CaseI};
ghost use Rattle.sc_cqljson.specs.Operators.{scalar, pattern};
ghost use Rattle.sc_cqljson.specs.Heads.{call, head_of, number_of};
ghost use Rattle.sc_cqljson.specs.Spells.{Calls, SpellsScalar, SpellsPattern};
ghost use Rattle.sc_cqljson.specs.Unfit.{Unfit};
ghost use Rattle.sc_cqljson.specs.Told.{Tells, behind, CantFold};

use crate::head::{Head, args_of, head_of, operator_in, read_name};
use crate::literal::{date_in, instant_in};
use crate::numbers::{behind, number_of};
use crate::operator::Operator;
use crate::words::args_name;
use sc_expr::{Boxed, CqlFault, Instant, Pattern, Scalar};
use sc_json::Json;
use std::alloc::Global;

/// What an object folds by `casei` in the place of a scalar or a pattern, or the fault of the object.
fn folded_in<'a>(tree: &'a Json, op: &Json) -> Result<&'a Json, CqlFault>
    requires { head_of tree.now ≡ call op.now }
    ensures { MatchResult result (λ arg. Calls tree.now CaseI (arg.now ∷ [])) (CantFold tree.now op.now) }
{
    let operator = operator_in(tree, op)?;
    if operator != Operator::CaseI {
        return Err(CqlFault::Syntax { at: 0 });
    }
    let args = args_of(tree, operator)?;
    Ok(&args[0])
}

/// The fault of what an object folds as that of the object.
fn within_folded(tree: &Json, fault: CqlFault) -> CqlFault
    ensures { result ≡ behind (in_bits 64 (number_of tree.now args_name)) (behind 1 fault) }
{
    behind(number_of(tree, args_name()), behind(1, fault))
}

/// A moment that can be read, or `BadLiteral`.
fn readable(moment: Option<Instant>) -> Result<Instant, CqlFault>
    ensures { MatchResult result (λ at. moment ≡ Some at) (λ fault. (moment ≡ None) × (fault ≡ CqlFault.BadLiteral 0)) }
{
    match moment {
        Some(at) => Ok(at),
        None => Err(CqlFault::BadLiteral { at: 0 }),
    }
}

#[cycle(scalar)]
fn read_folded(alloc: Global, tree: &Json, op: &Json) -> Result<Scalar, CqlFault>
    requires { head_of tree.now ≡ call op.now }
    ensures formed { IfOk result IsFormedScalar }
    ensures answer { MatchResult result (SpellsScalar tree.now) (Tells (Unfit scalar tree.now)) }
{
    match read_scalar(alloc, folded_in(tree, op)?) {
        Ok(scalar) => Ok(Scalar::Folded(Boxed::new(alloc, scalar)?)),
        Err(fault) => Err(within_folded(tree, fault)),
    }
}

/// The scalar that a tree is in the place of one.
#[cycle(scalar)]
pub(crate) fn read_scalar(alloc: Global, tree: &Json) -> Result<Scalar, CqlFault>
    ensures formed { IfOk result IsFormedScalar }
    ensures answer { MatchResult result (SpellsScalar tree.now) (Tells (Unfit scalar tree.now)) }
{
    match tree {
        Json::Truth(truth) => Ok(Scalar::Truth(*truth)),
        Json::Number(number) => Ok(Scalar::Number(number.dec)),
        Json::Text(text) => Ok(Scalar::Text(text.try_clone(alloc)?)),
        Json::Object(_) => match head_of(tree) {
            Head::Call(op) => read_folded(alloc, tree, op),
            Head::Property(value) => Ok(Scalar::Prop(read_name(alloc, tree, value)?)),
            Head::Timestamp(value) => Ok(Scalar::Moment(readable(instant_in(value))?)),
            Head::Date(value) => Ok(Scalar::Moment(readable(date_in(value))?)),
            _ => Err(CqlFault::Syntax { at: 0 }),
        },
        _ => Err(CqlFault::Syntax { at: 0 }),
    }
}

#[cycle(pattern)]
fn read_folded_pattern(alloc: Global, tree: &Json, op: &Json) -> Result<Pattern, CqlFault>
    requires { head_of tree.now ≡ call op.now }
    ensures { MatchResult result (SpellsPattern tree.now) (Tells (Unfit pattern tree.now)) }
{
    match read_pattern(alloc, folded_in(tree, op)?) {
        Ok(Pattern { text, .. }) => Ok(Pattern { text, folded: true }),
        Err(fault) => Err(within_folded(tree, fault)),
    }
}

/// The pattern that a tree is in the place of one.
#[cycle(pattern)]
pub(crate) fn read_pattern(alloc: Global, tree: &Json) -> Result<Pattern, CqlFault>
    ensures { MatchResult result (SpellsPattern tree.now) (Tells (Unfit pattern tree.now)) }
{
    match tree {
        Json::Text(text) => Ok(Pattern {
            text: text.try_clone(alloc)?,
            folded: false,
        }),
        Json::Object(_) => match head_of(tree) {
            Head::Call(op) => read_folded_pattern(alloc, tree, op),
            _ => Err(CqlFault::Syntax { at: 0 }),
        },
        _ => Err(CqlFault::Syntax { at: 0 }),
    }
}
