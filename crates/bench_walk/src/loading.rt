ghost use Rattle.std.specs.Prelude.{IfSome};
ghost use Rattle.sc_load.specs.Load.{IsWellFormed};

use crate::asking::{parted, text_of};
use sc_catalog::{Catalogue, Load};
use sc_json::read_json;
use sc_load::{prepare_collection, prepare_items};
use std::alloc::Global;

/// The load that puts items into a collection, of a line without its mark.
fn items_of(alloc: Global, line: &[u8]) -> Option<Load>
    ensures { IfSome result IsWellFormed }
{
    let (collection, items) = parted(line)?;
    let collection = text_of(alloc, collection)?;
    let Ok(tree) = read_json(alloc, items) else {
        return None;
    };
    prepare_items(alloc, &collection, false, tree).ok()
}

/// The load of a line; none where it isn't one.
fn load_of(alloc: Global, line: &[u8]) -> Option<Load>
    ensures { IfSome result IsWellFormed }
{
    match line {
        [b'+', b' ', document @ ..] => {
            let Ok(tree) = read_json(alloc, document) else {
                return None;
            };
            prepare_collection(alloc, tree).ok()
        }
        [b'=', b' ', items @ ..] => items_of(alloc, items),
        _ => None,
    }
}

/// A catalogue with the loads of all lines that are loads.
pub fn load_all(alloc: Global, bytes: &[u8]) -> anyhow::Result<Catalogue> {
    let mut catalogue = Catalogue::new(alloc)?;
    for line in bytes.split(|byte| *byte == b'\n') {
        let Some(load) = load_of(alloc, line) else {
            continue;
        };
        if catalogue.publish(alloc, 1, load).is_err() {
            anyhow::bail!("a load is refused");
        }
    }
    Ok(catalogue)
}
