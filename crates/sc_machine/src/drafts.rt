//! Loads that are read of the trees of steps.
ghost use Rattle.std.specs.Prelude.{◌≡◌, [], ◌∷◌, IfOk, MatchResult};
ghost use Rattle.std.specs.List.{AllByRecursion};
ghost use Rattle.sc_json.specs.declared.tree.Json.TheVariants as trees;
ghost use Rattle.sc_json.specs.Grammar.{member};
ghost use Rattle.sc_json.specs.Good.{Good};
ghost use Rattle.sc_item.specs.Words.{type_name};
ghost use Rattle.sc_load.specs.Load.{IsWellFormed};
ghost use Rattle.sc_load.specs.Prepared.{Puts, IsItemFault, IsItemsFault};
ghost use Rattle.sc_load.specs.Words.{features_name, several_word};
ghost use Rattle.sc_script.specs.Step.{HasGoodTree, StandsWithin};
ghost use Rattle.sc_machine.specs.Inside.{collection_tree};
ghost use Rattle.sc_machine.specs.Loads.{IsNoLoad, Reads, Replaces};

use sc_base::{Seq, Text};
use sc_item::{ItemFault, read_item};
use sc_json::{Json, Member};
use sc_load::{Load, PrepareFault, prepare_collection, prepare_items};
use sc_script::Draft;
use std::alloc::{AllocError, Global};
use std::sync::Arc;

#[tactic(auto, unfolding(sc_item::specs::Words::type_name))]
fn type_name() -> &'static str
    ensures { result.now ≡ type_name }
{
    "type"
}

#[tactic(auto, unfolding(sc_load::specs::Words::features_name))]
fn features_name() -> &'static str
    ensures { result.now ≡ features_name }
{
    "features"
}

#[tactic(auto, unfolding(sc_load::specs::Words::several_word))]
fn several_word() -> &'static str
    ensures { result.now ≡ several_word }
{
    "FeatureCollection"
}

/// A member of an object.
fn member_of(alloc: Global, name: &str, value: Json) -> Result<Member, AllocError>
    ensures { IfOk result (λ made. made ≡ member name.now value) }
{
    Ok(Member {
        name: Text::from_str(alloc, name)?,
        value,
    })
}

/// An object of two members.
fn object_of(alloc: Global, first: Member, second: Member) -> Result<Json, AllocError>
    ensures { IfOk result (λ tree. tree ≡ trees.Object (first ∷ second ∷ [])) }
{
    let members = Vec::from_array(alloc, [first, second])?;
    Ok(Json::Object(Seq::of(members)))
}

/// The FeatureCollection (RFC 7946 §3.3) of trees.
fn collection_of(alloc: Global, items: Seq<Json>) -> Result<Json, AllocError>
    ensures { IfOk result (λ tree. tree ≡ collection_tree items) }
{
    let word = Text::from_str(alloc, several_word())?;
    let kind = member_of(alloc, type_name(), Json::Text(word))?;
    let features = member_of(alloc, features_name(), Json::List(items))?;
    object_of(alloc, kind, features)
}

/// The load that inserts or upserts the items that trees are.
fn prepare_list(
    alloc: Global,
    collection: &Text,
    upsert: bool,
    items: Seq<Json>,
) -> Result<Load, PrepareFault>
    requires { AllByRecursion (StandsWithin 2) items }
    ensures answer { MatchResult result (Puts collection.now upsert items) (IsItemsFault collection.now items) }
    ensures well_formed { IfOk result IsWellFormed }
{
    let tree = collection_of(alloc, items)?;
    prepare_items(alloc, collection, upsert, tree)
}

/// The load that puts the item which a tree is into the place of the one with its id.
fn prepare_renewed(alloc: Global, collection: Text, item: Json) -> Result<Load, PrepareFault>
    requires { Good item }
    ensures answer { MatchResult result (Replaces collection item) (IsItemFault collection item 0) }
    ensures well_formed { IfOk result IsWellFormed }
{
    match read_item(alloc, &collection, item) {
        Ok(item) => {
            let item = Arc::new(alloc, item)?;
            Ok(Load::Replace { collection, item })
        }
        Err(ItemFault::OutOfMemory) => Err(PrepareFault::OutOfMemory),
        Err(fault) => Err(PrepareFault::BadItem { n: 0, fault }),
    }
}

/// The load that a draft is, or the first fault for which it is none.
pub(crate) fn prepare(alloc: Global, draft: Draft) -> Result<Load, PrepareFault>
    requires { HasGoodTree draft }
    ensures answer { MatchResult result (Reads draft) (IsNoLoad draft) }
    ensures well_formed { IfOk result IsWellFormed }
{
    match draft {
        Draft::Add { collection } => prepare_collection(alloc, collection),
        Draft::Drop { collection } => Ok(Load::DropCollection { id: collection }),
        Draft::Items {
            collection,
            upsert,
            items,
        } => prepare_list(alloc, &collection, upsert, items),
        Draft::Replace { collection, item } => prepare_renewed(alloc, collection, item),
        Draft::Patch {
            collection,
            id,
            patch,
        } => Ok(Load::Patch {
            collection,
            id,
            patch,
        }),
        Draft::Delete { collection, id } => Ok(Load::Delete { collection, id }),
    }
}
