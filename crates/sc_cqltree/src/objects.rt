//! The objects of which a tree is made.
ghost use Rattle.std.specs.Prelude.{◌≡◌, IfOk};
ghost use Rattle.sc_json.specs.declared.tree.Json.TheVariants as trees;
ghost use Rattle.sc_cqltree.specs.Objects.{member, only, call, shaped};

use sc_base::{Seq, Text};
use sc_json::{Json, Member};
use std::alloc::{AllocError, Global};

fn member(alloc: Global, name: &str, value: Json) -> Result<Member, AllocError>
    ensures { IfOk result (λ made. made ≡ member name.now value) }
{
    let name = Text::from_str(alloc, name)?;
    Ok(Member { name, value })
}

/// A text.
pub(crate) fn text(alloc: Global, text: &str) -> Result<Json, AllocError>
    ensures { IfOk result (λ tree. tree ≡ trees.Text text.now) }
{
    Ok(Json::Text(Text::from_str(alloc, text)?))
}

/// An object of one member.
pub(crate) fn only(alloc: Global, name: &str, value: Json) -> Result<Json, AllocError>
    ensures { IfOk result (λ tree. tree ≡ only name.now value) }
{
    let members = vec![in alloc; member(alloc, name, value)?]?;
    Ok(Json::Object(Seq::of(members)))
}

/// An object that calls an operator.
#[tactic(auto, unfolding(sc_cqljson::specs::Words::op_name, sc_cqljson::specs::Words::args_name))]
pub(crate) fn call(alloc: Global, op: &str, args: Vec<Json>) -> Result<Json, AllocError>
    ensures { IfOk result (λ tree. tree ≡ call op.now args.items) }
{
    let op = member(alloc, "op", text(alloc, op)?)?;
    let args = member(alloc, "args", Json::List(Seq::of(args)))?;
    Ok(Json::Object(Seq::of(vec![in alloc; op, args]?)))
}

/// An object of GeoJSON, of a type and what it consists of (RFC 7946 §3.1).
#[tactic(auto, unfolding(sc_geom::specs::Kinds::type_name))]
pub(crate) fn shaped(alloc: Global, kind: &str, name: &str, value: Json) -> Result<Json, AllocError>
    ensures { IfOk result (λ tree. tree ≡ shaped kind.now name.now value) }
{
    let kind = member(alloc, "type", text(alloc, kind)?)?;
    let parts = member(alloc, name, value)?;
    Ok(Json::Object(Seq::of(vec![in alloc; kind, parts]?)))
}
