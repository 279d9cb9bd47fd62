use sc_base::Seq;
use sc_cut::PartName;
use sc_load::Load;

/// An entry of a catalogue's history: a load, and the number of who published it.
#[derive(Drop)]
pub struct Entry {
    pub by: u32,
    pub load: Load,
}

/// What a catalogue tells of a load that it took.
#[derive(Drop)]
pub struct Published {
    /// The length of the history with the load.
    pub revision: u64,
    /// The names of the parts that the load touched and that are there after it, in their order.
    pub touched: Seq<PartName>,
}
