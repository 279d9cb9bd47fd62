ghost use Rattle.std.specs.Prelude.{◌≡◌};
ghost use Rattle.std.specs.Option.{option_copied};
ghost use Rattle.sc_eval.specs.Property.{property_value, seen, value_of_geometry, value_of_member};

use crate::value::Value;
use sc_base::Text;
use sc_geom::Geom;
use sc_item::Item;
use sc_json::{Json, find_member};
use sc_sort::{Queryable, named};

fn value_of_tree(tree: Option<&Json>) -> Value<'_>
    ensures { seen result ≡ value_of_member (option_copied tree.entry) }
{
    match tree {
        None => Value::Absent,
        Some(Json::Null) => Value::Absent,
        Some(Json::Truth(truth)) => Value::Truth(*truth),
        Some(Json::Number(number)) => Value::Number(&number.dec),
        Some(Json::Text(text)) => Value::Text(text),
        Some(Json::List(_)) => Value::Other,
        Some(Json::Object(_)) => Value::Other,
    }
}

fn value_of_geometry(item: &Item) -> Value<'_>
    ensures { seen result ≡ value_of_geometry item.now.geom }
{
    match item.geom() {
        None => Value::Absent,
        Some(geometry) => Value::Shape(geometry),
    }
}

/// The value of a name in an item. `id`, `collection` and `geometry` are the item's own. Any other name loses a prefix
/// `properties.`; then `datetime` is the moment at which the item starts, and any other is the member of `properties` of
/// exactly that name. Takes no memory.
#[tactic(auto, unfolding(crate::specs::Property::property_value))]
pub fn value_of<'a>(name: &Text, item: &'a Item) -> Value<'a>
    ensures { seen result ≡ property_value name.now item.now }
{
    match named(name.as_str()) {
        Queryable::Id => Value::Text(item.id()),
        Queryable::Collection => Value::Text(item.collection()),
        Queryable::Geometry => value_of_geometry(item),
        Queryable::Time => Value::Moment(item.start()),
        Queryable::Member(name) => value_of_tree(find_member(item.properties(), name)),
    }
}
