ghost use Rattle.std.specs.Prelude.{◌≡◌};
ghost use Rattle.sc_sort.specs.Keys.{is_short, IsKept};

use sc_base::Text;
use sc_decimal::Dec;
use sc_time::Instant;

/// The most bytes of a text among the values of a key list.
const LONGEST_TEXT: usize = 128;

/// What an item has under one key of a sort. In ascending order moments come first, then numbers, texts by their
/// bytes, false and true. What is absent comes last in both directions.
#[derive(Debug, Drop)]
pub enum SortValue {
    Moment(Instant),
    Number(Dec),
    Text(Text),
    Truth(bool),
    Absent,
}

impl SortValue {
    /// Whether the value isn't a text of more than 128 bytes, and so may stand in a [`KeyList`](crate::KeyList).
    pub fn is_short(&self) -> bool
        ensures { result ≡ is_short self.now }
    {
        match self {
            SortValue::Text(text) => text.len() <= LONGEST_TEXT,
            _ => true,
        }
    }

    /// What a value keeps. It computes nothing.
    pub(crate) fn keeps(&self)
        ensures { IsKept self.now }
    {
        match self {
            SortValue::Moment(at) => {
                at.nanoseconds();
            }
            SortValue::Number(number) => {
                number.neg();
            }
            SortValue::Text(text) => {
                text.bytes();
            }
            SortValue::Truth(_) | SortValue::Absent => {}
        }
    }
}
