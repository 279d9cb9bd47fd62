use crate::catalogue::Catalogue;
use crate::entry::Entry;
use sc_turn::Booked;

impl Booked for Catalogue {
    type Entry = Entry;

    ghost history = { λ c. c.entries };

    ghost by = { λ e. e.by };

    fn booked(&self) -> u64 {
        self.revision()
    }
}
