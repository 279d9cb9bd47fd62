ghost use Rattle.std.specs.Prelude.{◌≡◌, ◌++◌, ◌∷◌, IfOk, OnOk, flat_map, string_bytes};
ghost use Rattle.sc_json.specs.Compact.{compact};
ghost use Rattle.sc_document.specs.Documents as spec;

use crate::documents::{links_end, links_start};
use crate::links::{Link, push_link};
use sc_base::Text;
use sc_json::{Json, push_json};
use std::alloc::{AllocError, Global};

#[tactic(auto, unfolding(crate::specs::Documents::collections_start))]
fn collections_start() -> &'static str
    ensures { result.now ≡ spec.collections_start }
{
    "{\"collections\":["
}

/// Adds each tree behind a comma to a text.
fn push_more(text: &mut String, trees: &[Json]) -> Result<(), AllocError>
    ensures { OnOk result (string_bytes text.new ≡ string_bytes text.old ++ flat_map (λ tree. 44 ∷ compact tree) trees.now) }
{
    for tree in trees {
        text.push(',')?;
        push_json(text, tree)?;
    }
    Ok(())
}

/// Adds trees with commas between them to a text.
fn push_trees(text: &mut String, trees: &[Json]) -> Result<(), AllocError>
    ensures { OnOk result (string_bytes text.new ≡ string_bytes text.old ++ spec.tree_texts trees.now) }
{
    let Some((first, rest)) = trees.split_first() else {
        return Ok(());
    };
    push_json(text, first)?;
    push_more(text, rest)?;
    Ok(())
}

/// The list of collections, which are told by their documents (OGC API Features, part 1, section 7.13). The base is the
/// address of the catalogue without a slash at its end.
pub fn collections_text(alloc: Global, base: &Text, trees: &[Json]) -> Result<Text, AllocError>
    ensures { IfOk result (λ text. text ≡ spec.collections base.now trees.now) }
{
    let mut text = String::from_str(alloc, collections_start())?;
    push_trees(&mut text, trees)?;
    text.push(']')?;
    text.push_str(links_start())?;
    push_link(alloc, &mut text, Link::Root, base)?;
    text.push_str(links_end())?;
    Ok(Text::from_string(text))
}
