use crate::journals::records_in;
use sc_journal::{MemDisk, Opened, Sealed, open};
use std::alloc::{AllocError, Global};

/// The payloads of the records that are appended.
const PAYLOADS: [&[u8]; 3] = [b"one", b"second", b""];

/// A call of the disk that fails, by its number from 0, and how many bytes it writes all the same.
#[derive(Drop)]
struct Stop {
    call: u64,
    torn: usize,
}

fn stop_of(input: &[u8]) -> Option<Stop> {
    let text = std::str::from_utf8(input).ok()?;
    let (call, torn) = text.split_once(' ')?;
    let call = call.parse::<u64>().ok()?;
    let torn = torn.parse::<u32>().ok()? as usize;
    Some(Stop { call, torn })
}

/// What stands on an empty disk after a stop: how many records were stored before it, and the bytes that are left.
fn stopped(alloc: Global, stop: &Stop) -> Result<Option<(u64, MemDisk)>, AllocError> {
    let failing = Vec::from_slice(alloc, &[stop.call])?;
    let disk = MemDisk::new(alloc, Vec::new(alloc), failing).tearing(stop.torn);
    let Ok(Opened { mut journal, .. }) = open(alloc, disk) else {
        return Ok(None);
    };
    let mut stored: u64 = 0;
    for payload in PAYLOADS {
        let sealed = Sealed::of(alloc, payload)?;
        if !journal.has_room(&sealed) || journal.append(&sealed).is_err() {
            break;
        }
        stored = stored.saturating_add(1);
    }
    Ok(Some((stored, journal.into_disk())))
}

/// `journal-stop`: a call's number and a number of bytes with a blank between them; how many of three records were stored
/// before that call failed, how many a journal that is opened after it has, and its file.
pub fn journal_stop(alloc: Global, input: &[u8]) -> Result<Option<String>, AllocError> {
    let Some(stop) = stop_of(input) else {
        return Ok(None);
    };
    let Some((stored, disk)) = stopped(alloc, &stop)? else {
        return Ok(None);
    };
    let found = records_in(alloc, Vec::from_slice(alloc, disk.bytes())?)?;
    let count = found.records.len();
    let file = hex::encode(alloc, disk.bytes())?;
    Ok(Some(format!(in alloc; "{stored} {count} {file}")?))
}
