ghost use Rattle.std.specs.Prelude.{◌≡◌, Some, None, IfOk, MatchOption, MatchResult};
ghost use Rattle.std.specs.List.{All};
ghost use Rattle.sc_json.specs.Good.{Good};
ghost use Rattle.sc_load.specs.Features.{features_of, trees_of};

use crate::trees::{into_list, list_of, member, text_member};
use crate::words::{features_name, several_word, type_name};
use sc_base::Seq;
use sc_json::Json;
use std::alloc::{AllocError, Global};

/// The features of a FeatureCollection.
#[tactic(auto, unfolding(crate::specs::Features::features_of))]
fn features_of(tree: &Json) -> Option<&[Json]>
    ensures { MatchOption result (features_of tree.now ≡ None) (λ features. features_of tree.now ≡ Some features.now) }
{
    let kind = text_member(tree, type_name())?;
    if kind.as_str() != several_word() {
        return None;
    }
    list_of(member(tree, features_name())?)
}

/// The features of a FeatureCollection, taken out of the tree, or the tree as it is where there are none.
fn into_features(tree: Json) -> Result<Seq<Json>, Json>
    ensures { MatchResult result (λ features. features_of tree ≡ Some features) (λ same. (features_of tree ≡ None) × (same ≡ tree)) }
{
    match features_of(&tree) {
        None => Err(tree),
        Some(_) => match into_list(tree, features_name()) {
            Some(features) => Ok(features),
            None => unreachable!(),
        },
    }
}

/// The trees of the items that a tree brings, none of which is copied.
pub(crate) fn into_trees(alloc: Global, tree: Json) -> Result<Vec<Json>, AllocError>
    requires { Good tree }
    ensures trees { IfOk result (λ trees. trees.items ≡ trees_of tree) }
    ensures good { IfOk result (λ trees. All Good trees.items) }
{
    match into_features(tree) {
        Ok(features) => Ok(features.into_vec()),
        Err(tree) => {
            let mut trees = Vec::new(alloc);
            trees.push(tree)?;
            Ok(trees)
        }
    }
}
