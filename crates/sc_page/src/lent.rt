ghost use Rattle.std.specs.Prelude.{◌≡◌};
ghost use Rattle.sc_eval.specs.Property.{property_value};
ghost use Rattle.sc_page.specs.ItemKey.{front_of_text, sort_value};
ghost use Rattle.sc_page.specs.Lent.{lent_value};

use sc_base::Text;
use sc_decimal::Dec;
use sc_eval::{Value, value_of};
use sc_item::Item;
use sc_time::Instant;

/// The most bytes of a text that count.
const LONGEST_TEXT: usize = 128;

/// What an item has under a key of a sort, lent by it.
#[derive(Drop)]
pub(crate) enum LentValue<'a> {
    Moment(Instant),
    Number(Dec),
    Text(&'a str),
    Truth(bool),
    Absent,
}

/// The longest front of a text that has whole characters and at most 128 bytes.
pub(crate) fn front_of_text(text: &str) -> &str
    ensures { result.now ≡ front_of_text 128 text.now }
{
    let end = text.floor_char_boundary(LONGEST_TEXT);
    &text[..end]
}

/// What an item has under the key of this name.
pub(crate) fn lent_by<'a>(item: &'a Item, name: &Text) -> LentValue<'a>
    ensures { lent_value result ≡ sort_value (property_value name.now item.now) }
{
    match value_of(name, item) {
        Value::Moment(at) => LentValue::Moment(at),
        Value::Number(number) => LentValue::Number(*number),
        Value::Text(text) => LentValue::Text(front_of_text(text.as_str())),
        Value::Truth(truth) => LentValue::Truth(truth),
        Value::Shape(_shape) => LentValue::Absent,
        Value::Absent => LentValue::Absent,
        Value::Other => LentValue::Absent,
    }
}
