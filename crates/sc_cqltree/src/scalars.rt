//! The trees of scalars and patterns.
ghost use Rattle.std.specs.Prelude.{◌≡◌, IfOk, map};
ghost use Rattle.sc_json.specs.declared.tree.Json.TheVariants as trees;
ghost use Rattle.sc_cqljson.specs.Words.{property_name};
ghost use Rattle.sc_cqltree.specs.Objects.{only};
ghost use Rattle.sc_cqltree.specs.Scalars.{folded, moment_tree, scalar_tree, pattern_tree};

use crate::decimals::number_tree;
use crate::objects::{call, only, text};
use sc_base::Text;
use sc_expr::{Pattern, Scalar};
use sc_json::Json;
use sc_time::{Instant, write_instant};
use std::alloc::{AllocError, Global};

#[tactic(auto, unfolding(sc_cqljson::specs::Words::property_name))]
pub(crate) fn property_tree(alloc: Global, name: &Text) -> Result<Json, AllocError>
    ensures { IfOk result (λ tree. tree ≡ only property_name (trees.Text name.now)) }
{
    only(alloc, "property", text(alloc, name.as_str())?)
}

fn moment_tree(alloc: Global, at: Instant) -> Result<Json, AllocError>
    ensures { IfOk result (λ tree. tree ≡ moment_tree at) }
{
    let instant = write_instant(alloc, at)?;
    only(alloc, "timestamp", Json::Text(instant))
}

/// What is compared without regard to case.
fn folded_tree(alloc: Global, inside: Json) -> Result<Json, AllocError>
    ensures { IfOk result (λ tree. tree ≡ folded inside) }
{
    call(alloc, "casei", vec![in alloc; inside]?)
}

pub(crate) fn scalar_tree(alloc: Global, scalar: &Scalar) -> Result<Json, AllocError>
    ensures { IfOk result (λ tree. tree ≡ scalar_tree scalar.now) }
{
    match scalar {
        Scalar::Prop(name) => property_tree(alloc, name),
        Scalar::Text(content) => text(alloc, content.as_str()),
        Scalar::Number(number) => number_tree(alloc, number),
        Scalar::Truth(truth) => Ok(Json::Truth(*truth)),
        Scalar::Moment(moment) => moment_tree(alloc, *moment),
        Scalar::Folded(inner) => {
            let inside = scalar_tree(alloc, inner.get())?;
            folded_tree(alloc, inside)
        }
    }
}

/// The trees of scalars, in their order.
pub(crate) fn scalar_trees(alloc: Global, scalars: &[Scalar]) -> Result<Vec<Json>, AllocError>
    ensures { IfOk result (λ trees. trees.items ≡ map scalar_tree scalars.now) }
{
    let mut trees = Vec::with_capacity(alloc, scalars.len())?;
    for scalar in scalars {
        trees.push(scalar_tree(alloc, scalar)?)?;
    }
    Ok(trees)
}

pub(crate) fn pattern_tree(alloc: Global, pattern: &Pattern) -> Result<Json, AllocError>
    ensures { IfOk result (λ tree. tree ≡ pattern_tree pattern.now) }
{
    let plain = text(alloc, pattern.text.as_str())?;
    if pattern.folded {
        folded_tree(alloc, plain)
    } else {
        Ok(plain)
    }
}
