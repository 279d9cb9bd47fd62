use crate::kept::Kept;
use sc_catalog::Entry;
use sc_journal::Disk;
use sc_turn::Booked;

impl<D: Disk> Booked for Kept<D> {
    type Entry = Entry;

    ghost history = { λ k. k.catalogue.entries };

    ghost by = { λ e. e.by };

    fn booked(&self) -> u64 {
        self.catalogue().revision()
    }
}
