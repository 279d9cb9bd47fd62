ghost use Rattle.std.specs.Prelude.{ℕ, List, Some, IfOk, MatchOption, MatchResult};
ghost use Rattle.sc_json.specs.Good.{Good};
ghost use Rattle.sc_json.specs.Member.{member_value};
ghost use Rattle.sc_item.specs.Reading.{IsId};
ghost use Rattle.sc_cut.specs.declared.cut.Cut.{Cut as ACut};
ghost use Rattle.sc_load.specs.Words.{cut_name};
ghost use Rattle.sc_load.specs.Collection.{NamesCut, IsCutOf};
ghost use Rattle.sc_load.specs.Load.{IsWellFormed};
ghost use Rattle.sc_load.specs.Prepared.{Adds, IsCollectionFault};

use crate::fault::PrepareFault;
use crate::load::Load;
use crate::trees::{member, text_member, text_of};
use crate::words::{cut_name, id_name, month_word, whole_word, year_word};
use sc_base::Text;
use sc_cut::Cut;
use sc_json::Json;
use std::alloc::Global;

/// The id, if it is one.
fn id_of(tree: &Json) -> Option<&Text>
    ensures { MatchOption result ((id : List ℕ) → IsId tree.now id → ⊥) (λ id. IsId tree.now id.now) }
{
    let id = text_member(tree, id_name())?;
    if id.is_empty() {
        return None;
    }
    if id.len() > 256 {
        return None;
    }
    Some(id)
}

/// The cut that a value names.
fn named_cut(value: &Json) -> Option<Cut>
    ensures { MatchOption result ((cut : ACut) → NamesCut value.now cut → ⊥) (NamesCut value.now) }
{
    let word = text_of(value)?.as_str();
    if word == whole_word() {
        return Some(Cut::Whole);
    }
    if word == year_word() {
        return Some(Cut::Year);
    }
    if word == month_word() {
        return Some(Cut::Month);
    }
    None
}

/// The cut of a collection's document, if it tells one.
fn cut_of(tree: &Json) -> Option<Cut>
    ensures { MatchOption result ((cut : ACut) → IsCutOf (member_value tree.now cut_name) cut → ⊥) (IsCutOf (member_value tree.now cut_name)) }
{
    match member(tree, cut_name()) {
        Some(value) => named_cut(value),
        None => Some(Cut::Whole),
    }
}

/// The load that adds the collection which a tree describes: an object with an `id`, a text of 1 to 256 bytes, and a
/// `catalogue:cut` of "whole", "year" or "month"; without that member it is whole. Any other tree is `BadCollection`. All else
/// is kept as it is.
pub fn prepare_collection(alloc: Global, tree: Json) -> Result<Load, PrepareFault>
    requires { Good tree }
    ensures answer { MatchResult result (Adds tree) (IsCollectionFault tree) }
    ensures well_formed { IfOk result IsWellFormed }
{
    let Some(id) = id_of(&tree) else {
        return Err(PrepareFault::BadCollection);
    };
    let Some(cut) = cut_of(&tree) else {
        return Err(PrepareFault::BadCollection);
    };
    let id = id.try_clone(alloc)?;
    Ok(Load::AddCollection { id, cut, tree })
}
