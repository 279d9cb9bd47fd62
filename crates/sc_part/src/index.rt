//! The index of a version's ids.
ghost use Rattle.std.specs.Prelude.{◌≡◌, ◌<◌, ◌++◌, [], ◌∷◌, length, map, vec_len, All, Contains, IfOk, IfSome, OnOk, MatchOption, if◌then◌else◌};
ghost use Rattle.std.specs.List.{filter_map};
ghost use Rattle.sc_part.specs.Entry.{id_at, ids_of};
ghost use Rattle.sc_part.specs.Index.{AreDistinct, AreFor, IsIndex};
ghost use Rattle.sc_part.specs.Merged.{marked, moved_entry};
ghost use Rattle.sc_part.specs.Scan.{is_among};

use crate::entry::{Entry, compare_entries, compare_to_id, digest_of};
use sc_base::Text;
use sc_item::Item;
use std::alloc::{AllocError, Global};
use std::sync::Arc;

/// The place of the item with the id, or none where no item has it.
pub(crate) fn place_of(items: &[Arc<Item>], index: &[Entry], id: &str) -> Option<usize>
    requires { IsIndex (ids_of items.now) index.now }
    ensures { MatchOption result (¬ Contains (ids_of items.now) id.now) (λ place. (place < length items.now) × (id_at (ids_of items.now) place ≡ id.now)) }
{
    let digest = digest_of(id);
    match index.binary_search_by(|entry| compare_to_id(items, entry, digest, id)) {
        Ok(at) => Some(index[at].place),
        Err(_) => None,
    }
}

/// Sets the mark at a place, if there is one.
fn set_mark(marks: &mut Vec<bool>, place: Option<usize>)
    requires { IfSome place (λ place. place < vec_len marks.old) }
    ensures { marks.new.items ≡ marked marks.old.items place }
{
    if let Some(place) = place {
        marks[place] = true;
    }
}

/// A mark for each item, which is set where its id is one of these.
pub(crate) fn marks_of(
    alloc: Global,
    items: &[Arc<Item>],
    index: &[Entry],
    gone: &[Text],
) -> Result<Vec<bool>, AllocError>
    requires index { IsIndex (ids_of items.now) index.now }
    requires distinct { AreDistinct (ids_of items.now) }
    ensures { IfOk result (λ marks. marks.items ≡ map (is_among gone.now) (ids_of items.now)) }
{
    let mut marks = vec![in alloc; false; items.len()]?;
    for id in gone {
        set_mark(&mut marks, place_of(items, index, id.as_str()));
    }
    Ok(marks)
}

/// Adds an entry with a new place, unless its item goes.
fn push_moved(
    entries: &mut Vec<Entry>,
    entry: Entry,
    goes: bool,
    place: usize,
) -> Result<(), AllocError>
    ensures { OnOk result (entries.new.items ≡ entries.old.items ++ (if goes then [] else record { digest = entry.digest; place = place } ∷ [])) }
{
    if !goes {
        entries.push(Entry {
            digest: entry.digest,
            place,
        })?;
    }
    Ok(())
}

/// The entries of the items that stay, with their new places.
fn moved_entries(
    alloc: Global,
    index: &[Entry],
    marks: &[bool],
    moved: &[usize],
) -> Result<Vec<Entry>, AllocError>
    requires places { All (λ entry. entry.place < length marks.now) index.now }
    requires moved { length moved.now ≡ length marks.now }
    ensures { IfOk result (λ entries. entries.items ≡ filter_map (moved_entry marks.now moved.now) index.now) }
{
    let mut entries = Vec::with_capacity(alloc, index.len())?;
    for entry in index {
        push_moved(&mut entries, *entry, marks[entry.place], moved[entry.place])?;
    }
    Ok(entries)
}

/// The index of these items out of entries for all of them.
fn index_of(items: &[Arc<Item>], entries: Vec<Entry>) -> Result<Vec<Entry>, AllocError>
    requires { AreFor (ids_of items.now) entries.items (ids_of items.now) }
    ensures { IfOk result (λ index. IsIndex (ids_of items.now) index.items) }
{
    let mut index = entries;
    // What was in order stays so, and the few entries behind it are merged in.
    index.sort_by(|a, b| compare_entries(items, a, b))?;
    Ok(index)
}

/// The index of a version's items out of the index of an older version's. `marks` has the items that went, `moved` the
/// places to which the others moved, and `fresh` the entries of those that came.
pub(crate) fn index_after(
    alloc: Global,
    index: &[Entry],
    marks: &[bool],
    moved: &[usize],
    fresh: &[Entry],
    items: &[Arc<Item>],
) -> Result<Vec<Entry>, AllocError>
    requires places { All (λ entry. entry.place < length marks.now) index.now }
    requires moved { length moved.now ≡ length marks.now }
    requires entries { AreFor (ids_of items.now) (filter_map (moved_entry marks.now moved.now) index.now ++ fresh.now) (ids_of items.now) }
    ensures { IfOk result (λ index. IsIndex (ids_of items.now) index.items) }
{
    let mut entries = moved_entries(alloc, index, marks, moved)?;
    entries.extend_from_slice(fresh)?;
    index_of(items, entries)
}
