ghost use Rattle.std.specs.Prelude.{◌≡◌, Some, None, MatchResult, length, true, ◌⊎◌};
ghost use Rattle.sc_expr.specs.Filter.{in_bits};
ghost use Rattle.sc_cqljson.specs.Words.{op_name, property_name};
ghost use Rattle.sc_cqljson.specs.Operators.{takes};
ghost use Rattle.sc_cqljson.specs.Heads.{head_of, known, args_of, number_of, name_in};
ghost use Rattle.sc_cqljson.specs.Seen.{seen};
ghost use Rattle.sc_cqljson.specs.Told.{LacksArguments};

use crate::numbers::number_of;
use crate::operator::{Operator, operator_named, takes};
use crate::words::{
    args_name, bbox_name, date_name, op_name, property_name, timestamp_name, type_name,
};
use sc_base::Text;
use sc_expr::CqlFault;
use sc_json::Json;
use std::alloc::Global;

/// By which member an object is read, and its value where that is read.
#[derive(Drop)]
pub(crate) enum Head<'a> {
    Call(&'a Json),
    Property(&'a Json),
    Timestamp(&'a Json),
    Date(&'a Json),
    Bbox(&'a Json),
    Geometry,
    Nothing,
}

#[tactic(auto, unfolding(crate::specs::Heads::head_in))]
pub(crate) fn head_of(tree: &Json) -> Head<'_>
    ensures { seen result ≡ head_of tree.now }
{
    if let Some(value) = tree.member(op_name()) {
        return Head::Call(value);
    }
    if let Some(value) = tree.member(property_name()) {
        return Head::Property(value);
    }
    if let Some(value) = tree.member(timestamp_name()) {
        return Head::Timestamp(value);
    }
    if let Some(value) = tree.member(date_name()) {
        return Head::Date(value);
    }
    if let Some(value) = tree.member(bbox_name()) {
        return Head::Bbox(value);
    }
    match tree.member(type_name()) {
        Some(_) => Head::Geometry,
        None => Head::Nothing,
    }
}

/// The operator that the value of an object's `op` names, or the fault of the object where there is none of that name.
pub(crate) fn operator_in(tree: &Json, op: &Json) -> Result<Operator, CqlFault>
    ensures { MatchResult result (λ operator. known op.now ≡ Some operator)
        (λ fault. (known op.now ≡ None) × (fault ≡ CqlFault.Syntax (in_bits 64 (number_of tree.now op_name)))) }
{
    let named = match op.as_text() {
        Some(name) => operator_named(name.bytes()),
        None => None,
    };
    match named {
        Some(operator) => Ok(operator),
        None => Err(CqlFault::Syntax {
            at: number_of(tree, op_name()),
        }),
    }
}

/// The arguments with which an object calls an operator, or the fault of the object where it hasn't as many.
#[tactic(auto, unfolding(crate::specs::Heads::args_of))]
pub(crate) fn args_of(tree: &Json, operator: Operator) -> Result<&[Json], CqlFault>
    ensures { MatchResult result (λ args. (args_of tree.now ≡ Some args.now) × (takes operator (length args.now) ≡ true))
        (LacksArguments tree.now operator) }
{
    let Some(value) = tree.member(args_name()) else {
        return Err(CqlFault::Syntax { at: 0 });
    };
    let Some(args) = value.as_list() else {
        return Err(CqlFault::Syntax {
            at: number_of(tree, args_name()),
        });
    };
    if !takes(operator, args.len()) {
        return Err(CqlFault::Syntax { at: 0 });
    }
    Ok(args)
}

/// The name under an object's `property`, or the fault of the object where that is no text or an empty one.
#[tactic(auto, unfolding(crate::specs::Heads::name_in))]
pub(crate) fn read_name(alloc: Global, tree: &Json, value: &Json) -> Result<Text, CqlFault>
    ensures { MatchResult result (λ name. name_in value.now ≡ Some name)
        (λ fault. (fault ≡ CqlFault.OutOfMemory) ⊎ ((name_in value.now ≡ None) × (fault ≡ CqlFault.Syntax (in_bits 64 (number_of tree.now property_name))))) }
{
    match value.as_text() {
        Some(name) if !name.is_empty() => Ok(name.try_clone(alloc)?),
        _ => Err(CqlFault::Syntax {
            at: number_of(tree, property_name()),
        }),
    }
}
