ghost use Rattle.std.specs.Prelude.{◌≤◌, length, IfSome};
ghost use Rattle.sc_outside.specs.Causes.{Rose};

use crate::Disk;
use crate::progress::Progress;
use sc_outside::Failed;
use std::fs::File;
use std::io::{ErrorKind, Stderr};
use std::os::unix::fs::FileExt;

/// A file of the system as a disk. It tells nothing of its bytes: that they outlive a crash as those of a disk that tells do
/// is trusted. A sync is POSIX's `fdatasync`.
#[derive(Drop)]
pub struct FileDisk {
    file: Option<File>,
    faults: u64,
    progress: Progress,
}

impl FileDisk {
    /// A file that is open for reading and writing. Takes no memory.
    pub fn new(file: File) -> FileDisk {
        FileDisk {
            file: Some(file),
            faults: 0,
            progress: Progress::untold(),
        }
    }

    /// The same, which tells the standard error how far it is while a journal is opened, where that is a terminal.
    pub fn telling(file: File, errors: Stderr) -> FileDisk {
        FileDisk {
            file: Some(file),
            faults: 0,
            progress: Progress::told_to(errors),
        }
    }

    /// A disk on which each call fails, for a file that couldn't be opened. Takes no memory.
    pub fn failed() -> FileDisk {
        FileDisk {
            file: None,
            faults: 0,
            progress: Progress::untold(),
        }
    }

    /// Counts a fault.
    fn fault(&mut self) -> Failed
        ensures rose { Rose self.old.faults self.new.faults }
        ensures later { self.old.faults ≤ self.new.faults }
    {
        self.faults = self.faults.saturating_add(1);
        Failed
    }
}

/// The length of a file, or `None` where the system doesn't tell it.
fn file_len(file: &Option<File>) -> Option<u64> {
    let Some(file) = file else {
        return None;
    };
    match file.metadata() {
        Ok(metadata) => Some(metadata.len()),
        Err(_) => None,
    }
}

/// Reads from a place on. A call that a signal interrupts is made again.
fn file_read(file: &Option<File>, at: u64, buf: &mut [u8]) -> Option<usize>
    ensures { IfSome result (λ count. count ≤ length buf.new) }
{
    let Some(file) = file else {
        return None;
    };
    for _ in 0..u64::MAX {
        match file.read_at(buf, at) {
            Ok(count) => return Some(count),
            Err(error) if error.kind() == ErrorKind::Interrupted => {}
            Err(_) => return None,
        }
    }
    None
}

/// Writes all the bytes at a place, and answers whether it could.
fn file_write(file: &Option<File>, at: u64, bytes: &[u8]) -> bool {
    match file {
        Some(file) => file.write_all_at(bytes, at).is_ok(),
        None => false,
    }
}

/// Waits until what was written is on the disk, and answers whether it is.
fn file_sync(file: &Option<File>) -> bool {
    match file {
        Some(file) => file.sync_data().is_ok(),
        None => false,
    }
}

impl Disk for FileDisk {
    ghost use Rattle.std.specs.Prelude.{⊤, []};

    ghost tells = { λ d. ⊥ };

    ghost reads = { λ d. [] };

    ghost may_leave = { λ d file. ⊤ };

    ghost left_since = { λ d t file. ⊤ };

    ghost clock = { λ d. 0 };

    ghost faults = { λ d. d.faults };

    fn len(&mut self) -> Result<u64, Failed> {
        match file_len(&self.file) {
            Some(len) => {
                self.progress.begin(len);
                Ok(len)
            }
            None => Err(self.fault()),
        }
    }

    fn read_at(&mut self, at: u64, buf: &mut [u8]) -> Result<usize, Failed> {
        match file_read(&self.file, at, buf) {
            Some(count) => {
                self.progress.read_to(at.saturating_add(count as u64));
                Ok(count)
            }
            None => Err(self.fault()),
        }
    }

    fn end_reading(&mut self) {
        self.progress.end();
    }

    fn write_at(&mut self, at: u64, bytes: &[u8]) -> Result<(), Failed> {
        if file_write(&self.file, at, bytes) {
            return Ok(());
        }
        Err(self.fault())
    }

    fn sync(&mut self) -> Result<(), Failed> {
        if file_sync(&self.file) {
            return Ok(());
        }
        Err(self.fault())
    }

    ghost reads_now = { λ d tells. absurd tells };

    ghost since_now = { λ d tells. absurd tells };
}
