use crate::records::{Record, record_of};
use sc_catalog::{Catalogue, LoadFault};
use sc_journal::{MemDisk, OpenFault, OpenRefused, Opened, Sealed, Seq, open};
use std::alloc::{AllocError, Global};

/// The records of a file, and the number of the bad one that may stand behind them.
#[derive(Drop)]
pub struct Records {
    pub records: Seq<Sealed>,
    pub bad: Option<u64>,
}

/// Opens a disk on which these bytes are.
pub fn records_in(alloc: Global, bytes: Vec<u8>) -> Result<Records, AllocError> {
    match open(alloc, MemDisk::new(alloc, bytes, Vec::new(alloc))) {
        Ok(Opened { records, .. }) => Ok(Records { records, bad: None }),
        Err(
            OpenRefused {
                fault: OpenFault::BadRecord { n },
                records,
                ..
            },
        ) => Ok(Records {
            records,
            bad: Some(n),
        }),
        Err(_) => Err(AllocError),
    }
}

/// The number of the first record that isn't of the format.
fn first_bad(alloc: Global, found: &Records) -> Result<Option<u64>, AllocError> {
    for (place, record) in found.records.as_slice().iter().enumerate() {
        if record_of(alloc, record.payload())?.is_none() {
            return Ok(Some(place as u64));
        }
    }
    Ok(found.bad)
}

fn bad_text(alloc: Global, n: u64) -> Result<String, AllocError> {
    format!(in alloc; "fault BadRecord {n}")
}

/// What a catalogue that takes the loads of a file's records has, or the first bad record.
fn reopened(alloc: Global, found: &Records) -> Result<String, AllocError> {
    if let Some(n) = first_bad(alloc, found)? {
        return bad_text(alloc, n);
    }
    let mut catalogue = Catalogue::new(alloc)?;
    for (place, sealed) in found.records.as_slice().iter().enumerate() {
        let Some(Record { by, load }) = record_of(alloc, sealed.payload())? else {
            return bad_text(alloc, place as u64);
        };
        match catalogue.publish(alloc, by, load) {
            Ok(_) => {}
            Err(LoadFault::OutOfMemory) => return Err(AllocError),
            Err(_) => return bad_text(alloc, place as u64),
        }
    }
    let loads = catalogue.revision();
    let items = catalogue.snapshot(alloc)?.item_count();
    format!(in alloc; "ok {loads} {items}")
}

/// `journal`: a file's bytes; the number of its loads and of the items that they leave, or its first bad record.
pub fn journal(alloc: Global, input: &[u8]) -> Result<String, AllocError> {
    let found = records_in(alloc, Vec::from_slice(alloc, input)?)?;
    reopened(alloc, &found)
}
