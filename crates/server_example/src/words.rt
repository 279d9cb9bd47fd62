//! The names and bounds of parts.
use sc_base::Text;
use sc_catalog::Bounds;
use sc_cut::{Cut, PartName};
use sc_geom::GridBox;
use sc_time::Instant;
use std::alloc::{AllocError, Global};

/// The name of the part of a month, whose key counts months from year 0.
pub fn month(alloc: Global, key: i32) -> Result<PartName, AllocError> {
    Ok(PartName {
        collection: Text::from_str(alloc, "s2")?,
        cut: Cut::Month,
        key,
    })
}

/// The name of a part: its collection and its key.
pub fn name_text(alloc: Global, name: &PartName) -> Result<String, AllocError> {
    let collection = name.collection.as_str();
    let key = name.key;
    format!(in alloc; "{collection} {key}")
}

/// The first and the last of moments, in nanoseconds since 1970.
fn moments_text(alloc: Global, moments: Option<(Instant, Instant)>) -> Result<String, AllocError> {
    match moments {
        None => String::from_str(alloc, "none"),
        Some((first, last)) => {
            let first = first.nanoseconds();
            let last = last.nanoseconds();
            format!(in alloc; "{first} to {last}")
        }
    }
}

/// A box in tenths of a millionth of a degree: west, south, east and north.
fn place_text(alloc: Global, place: Option<GridBox>) -> Result<String, AllocError> {
    match place {
        None => String::from_str(alloc, "none"),
        Some(place) => {
            let west = place.west();
            let south = place.south();
            let east = place.east();
            let north = place.north();
            format!(in alloc; "{west},{south},{east},{north}")
        }
    }
}

/// Bounds: the starts, the ends and the place.
pub fn bounds_text(alloc: Global, bounds: &Bounds) -> Result<String, AllocError> {
    let starts = moments_text(alloc, bounds.starts())?;
    let ends = moments_text(alloc, bounds.ends())?;
    let place = place_text(alloc, bounds.place())?;
    let mut text = String::from_str(alloc, "starts ")?;
    text.push_str(starts.as_str())?;
    text.push_str(", ends ")?;
    text.push_str(ends.as_str())?;
    text.push_str(", box ")?;
    text.push_str(place.as_str())?;
    Ok(text)
}
