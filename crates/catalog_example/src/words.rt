//! The texts of answers.
use sc_catalog::{Bounds, Installed, LoadFault, PartName, Published};
use sc_cut::Cut;
use sc_geom::GridBox;
use sc_item::ItemFault;
use sc_time::Instant;
use std::alloc::{AllocError, Global};

fn cut_word(cut: Cut) -> &'static str {
    match cut {
        Cut::Whole => "whole",
        Cut::Year => "year",
        Cut::Month => "month",
    }
}

/// The name of a part: its collection, its cut and its key.
pub fn name_text(alloc: Global, name: &PartName) -> Result<String, AllocError> {
    let collection = name.collection.as_str();
    let cut = cut_word(name.cut);
    let key = name.key;
    format!(in alloc; "{collection} {cut} {key}")
}

fn moments_text(alloc: Global, moments: Option<(Instant, Instant)>) -> Result<String, AllocError> {
    match moments {
        None => String::from_str(alloc, "none"),
        Some((first, last)) => {
            let first = first.nanoseconds();
            let last = last.nanoseconds();
            format!(in alloc; "{first},{last}")
        }
    }
}

fn place_text(alloc: Global, place: Option<GridBox>) -> Result<String, AllocError> {
    match place {
        None => String::from_str(alloc, "none"),
        Some(place) => {
            let west = place.west();
            let south = place.south();
            let east = place.east();
            let north = place.north();
            format!(in alloc; "{west},{south},{east},{north}")
        }
    }
}

/// Bounds: the first and the last start, the first and the last end, and west, south, east and north.
pub fn bounds_text(alloc: Global, bounds: &Bounds) -> Result<String, AllocError> {
    let starts = moments_text(alloc, bounds.starts())?;
    let ends = moments_text(alloc, bounds.ends())?;
    let place = place_text(alloc, bounds.place())?;
    let mut text = String::from_str(alloc, starts.as_str())?;
    text.push_str(",")?;
    text.push_str(ends.as_str())?;
    text.push_str(",")?;
    text.push_str(place.as_str())?;
    Ok(text)
}

/// The answer of an install.
pub fn installed_text(alloc: Global, answer: Installed) -> Result<String, AllocError> {
    match answer {
        Installed::Exact => String::from_str(alloc, "Exact"),
        Installed::Joined => String::from_str(alloc, "Joined"),
        Installed::TooOld { kept_from } => format!(in alloc; "TooOld {kept_from}"),
        Installed::Gone => String::from_str(alloc, "Gone"),
    }
}

fn item_fault_word(fault: ItemFault) -> &'static str {
    match fault {
        ItemFault::NotAFeature => "NotAFeature",
        ItemFault::BadId => "BadId",
        ItemFault::WrongCollection => "WrongCollection",
        ItemFault::BadTime => "BadTime",
        ItemFault::BadGeometry { .. } => "BadGeometry",
        ItemFault::OutOfMemory => "OutOfMemory",
    }
}

fn with_word(alloc: Global, fault: &str, word: &str) -> Result<String, AllocError> {
    format!(in alloc; "{fault} {word}")
}

/// Why a load is refused.
pub fn fault_text(alloc: Global, fault: &LoadFault) -> Result<String, AllocError> {
    match fault {
        LoadFault::NoCollection => String::from_str(alloc, "NoCollection"),
        LoadFault::CollectionExists => String::from_str(alloc, "CollectionExists"),
        LoadFault::ItemExists { id } => with_word(alloc, "ItemExists", id.as_str()),
        LoadFault::NoItem { id } => with_word(alloc, "NoItem", id.as_str()),
        LoadFault::DuplicateInLoad { id } => with_word(alloc, "DuplicateInLoad", id.as_str()),
        LoadFault::BadPatch { fault } => with_word(alloc, "BadPatch", item_fault_word(*fault)),
        LoadFault::HistoryFull { entries, bytes } => {
            format!(in alloc; "HistoryFull {entries} {bytes}")
        }
        LoadFault::PartitionsFull { count } => format!(in alloc; "PartitionsFull {count}"),
        LoadFault::CollectionsFull { count } => format!(in alloc; "CollectionsFull {count}"),
        LoadFault::OutOfMemory => String::from_str(alloc, "OutOfMemory"),
    }
}

fn published_text(alloc: Global, published: &Published) -> Result<String, AllocError> {
    let revision = published.revision;
    let mut text = format!(in alloc; "revision {revision}")?;
    for name in published.touched.as_slice() {
        text.push_str(", ")?;
        let name = name_text(alloc, name)?;
        text.push_str(name.as_str())?;
    }
    Ok(text)
}

/// What a publish answers: the revision, and the parts that were touched and are there, or the fault.
pub fn answer_text(
    alloc: Global,
    answer: &Result<Published, LoadFault>,
) -> Result<String, AllocError> {
    match answer {
        Ok(published) => published_text(alloc, published),
        Err(fault) => fault_text(alloc, fault),
    }
}
