ghost use Rattle.std.specs.Prelude.{◌≡◌};
ghost use Rattle.sc_part.specs.Entry.{digest, entry_order, id_at, ids_of, key_of, key_order};

use sc_item::Item;
use std::cmp::Ordering;
use std::sync::Arc;

/// An id's digest, and the place of the item that has the id.
#[derive(Clone, Copy, Debug, PartialEq, Eq)]
pub(crate) struct Entry {
    pub digest: u64,
    pub place: usize,
}

/// The hash FNV-1a of 64 bits. Ids are told apart by their bytes too, so equal digests cost no more than a comparison.
#[tactic(auto, unfolding(crate::specs::Entry::digest))]
pub(crate) fn digest_of(id: &str) -> u64
    ensures { result ≡ digest id.now }
{
    let mut hash: u64 = 14_695_981_039_346_656_037;
    for byte in id.as_bytes() {
        hash = (hash ^ u64::from(*byte)).wrapping_mul(1_099_511_628_211);
    }
    hash
}

/// The id of the item at a place; empty past the end.
pub(crate) fn id_of_place(items: &[Arc<Item>], place: usize) -> &str
    ensures { result.now ≡ id_at (ids_of items.now) place }
{
    match items.get(place) {
        Some(item) => item.id().as_str(),
        None => "",
    }
}

/// Which of two entries comes first: the lesser digest, then the lesser id.
pub(crate) fn compare_entries(items: &[Arc<Item>], a: &Entry, b: &Entry) -> Ordering
    ensures { result ≡ entry_order (ids_of items.now) a.now b.now }
{
    match a.digest.cmp(&b.digest) {
        Ordering::Less => Ordering::Less,
        Ordering::Equal => id_of_place(items, a.place).cmp(id_of_place(items, b.place)),
        Ordering::Greater => Ordering::Greater,
    }
}

/// Whether an entry comes before or after an id with this digest, or stands for it.
pub(crate) fn compare_to_id(items: &[Arc<Item>], entry: &Entry, digest: u64, id: &str) -> Ordering
    ensures { result ≡ key_order (key_of (ids_of items.now) entry.now) (record { digest = digest; id = id.now }) }
{
    match entry.digest.cmp(&digest) {
        Ordering::Less => Ordering::Less,
        Ordering::Equal => id_of_place(items, entry.place).cmp(id),
        Ordering::Greater => Ordering::Greater,
    }
}
