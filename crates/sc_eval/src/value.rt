use sc_base::Text;
use sc_decimal::Dec;
use sc_geom::Geom;
use sc_time::Instant;

/// The value of a name in an item, lent by it.
#[derive(Drop)]
pub enum Value<'a> {
    /// There is none, or it is null.
    Absent,
    Text(&'a Text),
    Number(&'a Dec),
    Truth(bool),
    Moment(Instant),
    Shape(&'a Geom),
    /// A list or an object, which can't be compared.
    Other,
}
