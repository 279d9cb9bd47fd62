ghost use Rattle.std.specs.Prelude.{◌≡◌, map, option_map};
ghost use Rattle.sc_cqlgrammar.specs.declared.rule.Rule.TheVariants as rules;
ghost use Rattle.sc_cqlgrammar.specs.Table.{predict};
ghost use Rattle.sc_cqlgrammar.specs.Machine.{item_of};

use crate::item::Item;
use crate::mark::Mark;
use crate::rule::Rule;
use sc_grammar::Class;

/// The alternative of a geometry that the class picks.
pub(crate) fn geometry(class: Class) -> Option<&'static [Item]>
    ensures { option_map (λ items. map item_of items.now) result ≡ predict rules.Geometry class }
{
    match class {
        Class::Point => Some(&[
            Item::Token(Class::Point),
            Item::Rule(Rule::ZWord),
            Item::Token(Class::Opening),
            Item::Rule(Rule::Position),
            Item::Mark(Mark::Points),
            Item::Token(Class::Closing),
        ]),
        Class::LineString => Some(&[
            Item::Token(Class::LineString),
            Item::Rule(Rule::ZWord),
            Item::Rule(Rule::Line),
        ]),
        Class::Polygon => Some(&[
            Item::Token(Class::Polygon),
            Item::Rule(Rule::ZWord),
            Item::Rule(Rule::Area),
        ]),
        Class::MultiPoint => Some(&[
            Item::Token(Class::MultiPoint),
            Item::Rule(Rule::ZWord),
            Item::Token(Class::Opening),
            Item::Rule(Rule::Member),
            Item::Rule(Rule::MemberRest),
            Item::Mark(Mark::Points),
            Item::Token(Class::Closing),
        ]),
        Class::MultiLineString => Some(&[
            Item::Token(Class::MultiLineString),
            Item::Rule(Rule::ZWord),
            Item::Token(Class::Opening),
            Item::Rule(Rule::Line),
            Item::Rule(Rule::LineRest),
            Item::Token(Class::Closing),
        ]),
        Class::MultiPolygon => Some(&[
            Item::Token(Class::MultiPolygon),
            Item::Rule(Rule::ZWord),
            Item::Token(Class::Opening),
            Item::Rule(Rule::Area),
            Item::Rule(Rule::AreaRest),
            Item::Token(Class::Closing),
        ]),
        Class::GeometryCollection => Some(&[
            Item::Token(Class::GeometryCollection),
            Item::Rule(Rule::ZWord),
            Item::Token(Class::Opening),
            Item::Rule(Rule::Geometry),
            Item::Rule(Rule::GeometryRest),
            Item::Token(Class::Closing),
        ]),
        _ => None,
    }
}

/// The alternative of the word `Z` or nothing that the class picks.
pub(crate) fn z_word(class: Class) -> Option<&'static [Item]>
    ensures { option_map (λ items. map item_of items.now) result ≡ predict rules.ZWord class }
{
    match class {
        Class::Z => Some(&[Item::Token(Class::Z)]),
        Class::Opening => Some(&[]),
        _ => None,
    }
}

/// The alternative of the other geometries of a collection that the class picks.
pub(crate) fn geometry_rest(class: Class) -> Option<&'static [Item]>
    ensures { option_map (λ items. map item_of items.now) result ≡ predict rules.GeometryRest class }
{
    match class {
        Class::Comma => Some(&[
            Item::Token(Class::Comma),
            Item::Rule(Rule::Geometry),
            Item::Rule(Rule::GeometryRest),
        ]),
        Class::Closing => Some(&[]),
        _ => None,
    }
}

/// The alternative of a point of a MULTIPOINT that the class picks.
pub(crate) fn member(class: Class) -> Option<&'static [Item]>
    ensures { option_map (λ items. map item_of items.now) result ≡ predict rules.Member class }
{
    match class {
        Class::Opening => Some(&[
            Item::Token(Class::Opening),
            Item::Rule(Rule::Position),
            Item::Token(Class::Closing),
        ]),
        Class::Number => Some(&[Item::Rule(Rule::Position)]),
        _ => None,
    }
}

/// The alternative of the other points of a MULTIPOINT that the class picks.
pub(crate) fn member_rest(class: Class) -> Option<&'static [Item]>
    ensures { option_map (λ items. map item_of items.now) result ≡ predict rules.MemberRest class }
{
    match class {
        Class::Comma => Some(&[
            Item::Token(Class::Comma),
            Item::Rule(Rule::Member),
            Item::Rule(Rule::MemberRest),
        ]),
        Class::Closing => Some(&[]),
        _ => None,
    }
}

/// The alternative of a line that the class picks.
pub(crate) fn line(class: Class) -> Option<&'static [Item]>
    ensures { option_map (λ items. map item_of items.now) result ≡ predict rules.Line class }
{
    match class {
        Class::Opening => Some(&[
            Item::Token(Class::Opening),
            Item::Rule(Rule::Position),
            Item::Rule(Rule::PositionRest),
            Item::Mark(Mark::Line),
            Item::Token(Class::Closing),
        ]),
        _ => None,
    }
}

/// The alternative of the other lines of a MULTILINESTRING that the class picks.
pub(crate) fn line_rest(class: Class) -> Option<&'static [Item]>
    ensures { option_map (λ items. map item_of items.now) result ≡ predict rules.LineRest class }
{
    match class {
        Class::Comma => Some(&[
            Item::Token(Class::Comma),
            Item::Rule(Rule::Line),
            Item::Rule(Rule::LineRest),
        ]),
        Class::Closing => Some(&[]),
        _ => None,
    }
}

/// The alternative of an area that the class picks.
pub(crate) fn area(class: Class) -> Option<&'static [Item]>
    ensures { option_map (λ items. map item_of items.now) result ≡ predict rules.Area class }
{
    match class {
        Class::Opening => Some(&[
            Item::Token(Class::Opening),
            Item::Rule(Rule::Ring),
            Item::Rule(Rule::RingRest),
            Item::Mark(Mark::Area),
            Item::Token(Class::Closing),
        ]),
        _ => None,
    }
}

/// The alternative of the other areas of a MULTIPOLYGON that the class picks.
pub(crate) fn area_rest(class: Class) -> Option<&'static [Item]>
    ensures { option_map (λ items. map item_of items.now) result ≡ predict rules.AreaRest class }
{
    match class {
        Class::Comma => Some(&[
            Item::Token(Class::Comma),
            Item::Rule(Rule::Area),
            Item::Rule(Rule::AreaRest),
        ]),
        Class::Closing => Some(&[]),
        _ => None,
    }
}

/// The alternative of a ring that the class picks.
pub(crate) fn ring(class: Class) -> Option<&'static [Item]>
    ensures { option_map (λ items. map item_of items.now) result ≡ predict rules.Ring class }
{
    match class {
        Class::Opening => Some(&[
            Item::Token(Class::Opening),
            Item::Rule(Rule::Position),
            Item::Rule(Rule::PositionRest),
            Item::Mark(Mark::Ring),
            Item::Token(Class::Closing),
        ]),
        _ => None,
    }
}

/// The alternative of the other rings of an area that the class picks.
pub(crate) fn ring_rest(class: Class) -> Option<&'static [Item]>
    ensures { option_map (λ items. map item_of items.now) result ≡ predict rules.RingRest class }
{
    match class {
        Class::Comma => Some(&[
            Item::Token(Class::Comma),
            Item::Rule(Rule::Ring),
            Item::Rule(Rule::RingRest),
        ]),
        Class::Closing => Some(&[]),
        _ => None,
    }
}

/// The alternative of a position that the class picks.
pub(crate) fn position(class: Class) -> Option<&'static [Item]>
    ensures { option_map (λ items. map item_of items.now) result ≡ predict rules.Position class }
{
    match class {
        Class::Number => Some(&[
            Item::Token(Class::Number),
            Item::Mark(Mark::Longitude),
            Item::Token(Class::Number),
            Item::Mark(Mark::Latitude),
            Item::Rule(Rule::Height),
        ]),
        _ => None,
    }
}

/// The alternative of a height or nothing that the class picks.
pub(crate) fn height(class: Class) -> Option<&'static [Item]>
    ensures { option_map (λ items. map item_of items.now) result ≡ predict rules.Height class }
{
    match class {
        Class::Number => Some(&[Item::Token(Class::Number), Item::Mark(Mark::Height)]),
        Class::Closing | Class::Comma => Some(&[]),
        _ => None,
    }
}

/// The alternative of the other positions of a line that the class picks.
pub(crate) fn position_rest(class: Class) -> Option<&'static [Item]>
    ensures { option_map (λ items. map item_of items.now) result ≡ predict rules.PositionRest class }
{
    match class {
        Class::Comma => Some(&[
            Item::Token(Class::Comma),
            Item::Rule(Rule::Position),
            Item::Rule(Rule::PositionRest),
        ]),
        Class::Closing => Some(&[]),
        _ => None,
    }
}
