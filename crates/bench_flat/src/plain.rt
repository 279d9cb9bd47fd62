//! The yardstick: a plain loop over the same items that keeps the best in a heap.
use crate::ranks::{Rank, Wanted, rank_of};
use sc_base::Text;
use sc_item::Item;
use std::alloc::{AllocError, Global};
use std::collections::BinaryHeap;
use std::sync::Arc;

/// Whether a rank comes strictly behind a place, where there is one.
fn is_behind(rank: &Rank<'_>, place: &Option<Rank<'_>>) -> bool {
    match place {
        None => true,
        Some(place) => rank > place,
    }
}

/// Whether a rank is among the best, as far as they are known.
fn is_better(best: &BinaryHeap<Rank<'_>>, rank: &Rank<'_>, most: usize) -> bool {
    if best.len() < most {
        return true;
    }
    match best.peek() {
        None => false,
        Some(worst) => rank < worst,
    }
}

/// Puts a rank among the best, of which there are at most so many.
fn keep<'a>(
    best: &mut BinaryHeap<Rank<'a>>,
    rank: Rank<'a>,
    most: usize,
) -> Result<(), AllocError> {
    if best.len() >= most {
        best.pop();
    }
    best.push(rank)?;
    Ok(())
}

/// The ranks of the first so many items that are wanted and come behind a place, where one is given, in order.
pub fn best_plainly<'a>(
    alloc: Global,
    items: &'a [Arc<Item>],
    wanted: Wanted,
    behind: Option<Rank<'a>>,
    most: usize,
) -> Result<Vec<Rank<'a>>, AllocError> {
    let cover = Text::from_str(alloc, "eo:cloud_cover")?;
    let mut best = BinaryHeap::new(alloc);
    for item in items {
        let Some(rank) = rank_of(wanted, &cover, item) else {
            continue;
        };
        if is_behind(&rank, &behind) && is_better(&best, &rank, most) {
            keep(&mut best, rank, most)?;
        }
    }
    Ok(best.into_sorted_vec())
}
