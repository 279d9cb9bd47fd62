use std::io::{IsTerminal, Stderr, Write};

/// A megabyte, in bytes.
const MEGABYTE: u64 = 1_000_000;

/// At least so many bytes are read between two lines.
const STEP: u64 = 64 * MEGABYTE;

/// How far the reading of a file is, and the terminal that is told so, if there is one. A terminal that fails is told nothing
/// more than it took.
#[derive(Drop)]
pub(crate) struct Progress {
    terminal: Option<Stderr>,
    // The bytes of the file.
    end: u64,
    // How far it was at the last line; 0 where none was written.
    told: u64,
}

impl Progress {
    /// Told to no one.
    pub(crate) fn untold() -> Progress {
        Progress {
            terminal: None,
            end: 0,
            told: 0,
        }
    }

    /// Told to the standard error, where that is a terminal.
    pub(crate) fn told_to(errors: Stderr) -> Progress {
        let terminal = if errors.is_terminal() {
            Some(errors)
        } else {
            None
        };
        Progress {
            terminal,
            end: 0,
            told: 0,
        }
    }

    /// A file of so many bytes is to be read.
    pub(crate) fn begin(&mut self, end: u64) {
        self.end = end;
    }

    /// The file was read up to a place. The line takes the place of the one before it.
    pub(crate) fn read_to(&mut self, place: u64) {
        if place.saturating_sub(self.told) < STEP {
            return;
        }
        if let Some(terminal) = &mut self.terminal {
            let read = place / MEGABYTE;
            let all = self.end / MEGABYTE;
            let _ = write!(terminal, "\rstacd: read {read} of {all} MB");
            self.told = place;
        }
    }

    /// Reading is over: the line ends.
    pub(crate) fn end(&mut self) {
        if self.told == 0 {
            return;
        }
        if let Some(terminal) = &mut self.terminal {
            let _ = writeln!(terminal);
        }
        self.told = 0;
    }
}
