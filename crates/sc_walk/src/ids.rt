ghost use Rattle.std.specs.Prelude.{◌≡◌, ◌++◌, ◌∷◌, [], if◌then◌else◌, filter, length, option_map, IfOk, OnOk, IsPermutation};
ghost use Rattle.std.specs.Arc.{arc_value};
ghost use Rattle.std.specs.Option.{option_to_list};
ghost use Rattle.sc_part.specs.Scan.{HaveOwnIds};
ghost use Rattle.sc_eval.specs.Names.{AreSameNames};
ghost use Rattle.sc_eval.specs.Selection.{is_one_of};
ghost use Rattle.sc_page.specs.Search.{shared};
ghost use Rattle.sc_walk.specs.Ids.{AreOnce, looked_up};

use sc_base::Text;
use sc_item::Item;
use sc_part::PartVersion;
use std::alloc::{AllocError, Global};
use std::collections::HashSet;
use std::marker::Model;
use std::sync::Arc;

/// An id, lent by a list of them. Contracts see it as its text.
#[derive(Drop)]
struct Id<'a> {
    text: &'a Text,
}

impl<'a> Model for Id<'a> {
    ghost use Rattle.std.specs.Prelude.{ℕ, List};

    ghost Value = { List ℕ };

    ghost view = { λ i. i.text.now };
}

/// Ids that are looked up, lent by a list of them. Contracts see them as a list that has each id once.
#[derive(Drop)]
pub(crate) struct Ids<'a> {
    once: Vec<Id<'a>>,
}

impl<'a> Model for Ids<'a> {
    ghost use Rattle.std.specs.Prelude.{ℕ, List};
    ghost use Rattle.sc_walk.specs.Ids.{AreOnce};

    ghost Value = { List (List ℕ) };

    ghost view = { λ i. i.once.items };

    ghost invariant = { λ i. AreOnce i.once.items };
}

/// Puts an id at the end, where it is new.
fn push_new<'a>(once: &mut Vec<Id<'a>>, text: &'a Text, is_new: bool) -> Result<(), AllocError>
    ensures { OnOk result (once.new.items ≡ once.old.items ++ (if is_new then text.now ∷ [] else [])) }
{
    if is_new {
        once.push(Id { text })?;
    }
    Ok(())
}

/// The ids of a list, each once.
fn each_once<'a>(alloc: Global, ids: &'a [Text]) -> Result<Vec<Id<'a>>, AllocError>
    ensures once { IfOk result (λ once. AreOnce once.items) }
    ensures same { IfOk result (λ once. AreSameNames once.items ids.now) }
{
    let mut seen = HashSet::with_capacity(alloc, ids.len())?;
    let mut once = Vec::new(alloc);
    for id in ids {
        let is_new = seen.insert(id.as_str())?;
        push_new(&mut once, id, is_new)?;
    }
    Ok(once)
}

/// Puts an item that was found at the end.
fn push_found(found: &mut Vec<Arc<Item>>, item: Option<&Arc<Item>>) -> Result<(), AllocError>
    ensures { OnOk result (shared found.new.items ≡ shared found.old.items ++ option_to_list (option_map (λ i. arc_value i.now) item.entry)) }
{
    match item {
        None => Ok(()),
        Some(item) => {
            found.push(Arc::try_clone(item)?)?;
            Ok(())
        }
    }
}

/// The items of a part that the ids find.
fn find_each(alloc: Global, ids: &[Id], version: &PartVersion) -> Result<Vec<Arc<Item>>, AllocError>
    ensures { IfOk result (λ found. shared found.items ≡ looked_up ids.now version.now.items) }
{
    let mut found = Vec::new(alloc);
    for id in ids {
        push_found(&mut found, version.find_id(id.text))?;
    }
    Ok(found)
}

impl<'a> Ids<'a> {
    /// The ids of this list.
    pub(crate) fn of(alloc: Global, ids: &'a [Text]) -> Result<Ids<'a>, AllocError>
        ensures { IfOk result (λ once. AreSameNames once ids.now) }
    {
        Ok(Ids {
            once: each_once(alloc, ids)?,
        })
    }

    /// How many they are.
    pub(crate) fn len(&self) -> usize
        ensures { result ≡ length self.now }
    {
        self.once.len()
    }

    /// The items of a part that have one of the ids, each found by one look-up.
    pub(crate) fn find_in(
        &self,
        alloc: Global,
        version: &PartVersion,
    ) -> Result<Vec<Arc<Item>>, AllocError>
        requires { HaveOwnIds version.now.items }
        ensures { IfOk result (λ found. IsPermutation (shared found.items) (filter (λ i. is_one_of self.now i.id) version.now.items)) }
    {
        find_each(alloc, &self.once, version)
    }
}
