//! A list of numbers, each with who added it, as a value with a history.
ghost use Rattle.std.specs.Prelude.{◌≡◌, ◌++◌, ◌∷◌, [], length, IfOk, OnErr};

use sc_turn::{Booked, Seq};
use std::alloc::{AllocError, Global};

#[derive(Drop)]
pub struct Numbers {
    entries: Seq<(u32, u64)>,
}

impl Booked for Numbers {
    type Entry = (u32, u64);

    ghost history = { λ n. n.entries };

    ghost by = { λ e. e.0 };

    fn booked(&self) -> u64 {
        self.entries.len() as u64
    }
}

impl Numbers {
    ghost use Rattle.bench_turn.specs.Numbers.{entries_of};

    /// An empty list, with room for so many entries.
    pub fn with_room(alloc: Global, room: usize) -> Result<Numbers, AllocError>
        ensures { IfOk result (λ n. entries_of n ≡ []) }
    {
        let entries = Vec::with_capacity(alloc, room)?;
        Ok(Numbers {
            entries: Seq::of(entries),
        })
    }

    pub fn len(&self) -> u64
        ensures { result ≡ length (entries_of self.now) }
    {
        self.entries.len() as u64
    }

    pub fn add(&mut self, by: u32, number: u64) -> Result<(), AllocError>
        ensures ok { IfOk result (λ _. entries_of self.new ≡ entries_of self.old ++ (by, number) ∷ []) }
        ensures err { OnErr result (entries_of self.new ≡ entries_of self.old) }
    {
        self.entries.push((by, number))
    }
}
