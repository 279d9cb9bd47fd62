use sc_geom::{GeomFault, GridBox};
use sc_item::{Item, ItemFault, Text, merge_patch, read_item};
use sc_json::{read_json, write_json};
use std::alloc::{AllocError, Global};

/// The two parts of an input, before and behind its first line feed.
pub fn two_lines(input: &[u8]) -> Option<(&[u8], &[u8])> {
    let feed = input.iter().position(|byte| *byte == b'\n')?;
    let (first, rest) = input.split_at(feed);
    let (_, second) = rest.split_first()?;
    Some((first, second))
}

fn place_text(alloc: Global, place: Option<GridBox>) -> Result<String, AllocError> {
    match place {
        None => String::from_str(alloc, "none"),
        Some(place) => {
            let west = place.west();
            let south = place.south();
            let east = place.east();
            let north = place.north();
            format!(in alloc; "{west},{south},{east},{north}")
        }
    }
}

fn item_text(alloc: Global, item: &Item) -> Result<String, AllocError> {
    let start = item.start().nanoseconds();
    let end = item.end().nanoseconds();
    let place = place_text(alloc, item.place())?;
    let doc = item.doc().as_str();
    let mut text = format!(in alloc; "ok {start} {end} {place} ")?;
    text.push_str(doc)?;
    Ok(text)
}

fn geometry_fault_text(alloc: Global, fault: Option<GeomFault>) -> Result<String, AllocError> {
    match fault {
        None => String::from_str(alloc, "fault BadGeometry"),
        Some(GeomFault::BadShape) => String::from_str(alloc, "fault BadGeometry BadShape"),
        Some(GeomFault::OpenRing) => String::from_str(alloc, "fault BadGeometry OpenRing"),
        Some(GeomFault::OutOfWorld) => String::from_str(alloc, "fault BadGeometry OutOfWorld"),
        Some(GeomFault::TooManyPositions { count }) => {
            format!(in alloc; "fault BadGeometry TooManyPositions {count}")
        }
        Some(GeomFault::OutOfMemory) => Err(AllocError),
    }
}

/// `item`: a collection and a tree behind it, read as an item.
pub fn item(alloc: Global, input: &[u8]) -> Result<Option<String>, AllocError> {
    let Some((first, second)) = two_lines(input) else {
        return Ok(None);
    };
    let Some(collection) = Text::of(alloc, first)? else {
        return Ok(None);
    };
    let Ok(tree) = read_json(alloc, second) else {
        return Ok(Some(String::from_str(alloc, "fault Json")?));
    };
    let text = match read_item(alloc, &collection, tree) {
        Ok(item) => item_text(alloc, &item)?,
        Err(ItemFault::NotAFeature) => String::from_str(alloc, "fault NotAFeature")?,
        Err(ItemFault::BadId) => String::from_str(alloc, "fault BadId")?,
        Err(ItemFault::WrongCollection) => String::from_str(alloc, "fault WrongCollection")?,
        Err(ItemFault::BadTime) => String::from_str(alloc, "fault BadTime")?,
        Err(ItemFault::BadGeometry { fault }) => geometry_fault_text(alloc, fault)?,
        Err(ItemFault::OutOfMemory) => return Err(AllocError),
    };
    Ok(Some(text))
}

/// `merge-patch`: a target and a patch behind it, merged.
pub fn patch(alloc: Global, input: &[u8]) -> Result<Option<String>, AllocError> {
    let Some((first, second)) = two_lines(input) else {
        return Ok(None);
    };
    let (Ok(target), Ok(patch)) = (read_json(alloc, first), read_json(alloc, second)) else {
        return Ok(None);
    };
    let merged = write_json(alloc, &merge_patch(alloc, &target, &patch)?)?;
    let mut text = String::from_str(alloc, "ok ")?;
    text.push_str(merged.as_str())?;
    Ok(Some(text))
}
