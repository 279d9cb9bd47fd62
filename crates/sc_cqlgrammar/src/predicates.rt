ghost use Rattle.std.specs.Prelude.{◌≡◌, map, option_map};
ghost use Rattle.sc_cqlgrammar.specs.declared.rule.Rule.TheVariants as rules;
ghost use Rattle.sc_cqlgrammar.specs.Table.{predict};
ghost use Rattle.sc_cqlgrammar.specs.Machine.{item_of};

use crate::item::Item;
use crate::mark::Mark;
use crate::rule::Rule;
use sc_grammar::Class;

/// The alternative of a test that the class picks.
pub(crate) fn test(class: Class) -> Option<&'static [Item]>
    ensures { option_map (λ items. map item_of items.now) result ≡ predict rules.Test class }
{
    match class {
        Class::Equal => Some(&[
            Item::Token(Class::Equal),
            Item::Rule(Rule::Scalar),
            Item::Mark(Mark::Equal),
        ]),
        Class::NotEqual => Some(&[
            Item::Token(Class::NotEqual),
            Item::Rule(Rule::Scalar),
            Item::Mark(Mark::NotEqual),
        ]),
        Class::Less => Some(&[
            Item::Token(Class::Less),
            Item::Rule(Rule::Scalar),
            Item::Mark(Mark::Less),
        ]),
        Class::Greater => Some(&[
            Item::Token(Class::Greater),
            Item::Rule(Rule::Scalar),
            Item::Mark(Mark::Greater),
        ]),
        Class::AtMost => Some(&[
            Item::Token(Class::AtMost),
            Item::Rule(Rule::Scalar),
            Item::Mark(Mark::AtMost),
        ]),
        Class::AtLeast => Some(&[
            Item::Token(Class::AtLeast),
            Item::Rule(Rule::Scalar),
            Item::Mark(Mark::AtLeast),
        ]),
        Class::Is => Some(&[Item::Token(Class::Is), Item::Rule(Rule::NullTest)]),
        Class::Not => Some(&[
            Item::Token(Class::Not),
            Item::Rule(Rule::Negatable),
            Item::Mark(Mark::Negate),
        ]),
        Class::Like | Class::Between | Class::In => Some(&[Item::Rule(Rule::Negatable)]),
        _ => None,
    }
}

/// The alternative of what stands behind IS that the class picks.
pub(crate) fn null_test(class: Class) -> Option<&'static [Item]>
    ensures { option_map (λ items. map item_of items.now) result ≡ predict rules.NullTest class }
{
    match class {
        Class::Null => Some(&[Item::Token(Class::Null), Item::Mark(Mark::IsNull)]),
        Class::Not => Some(&[
            Item::Token(Class::Not),
            Item::Token(Class::Null),
            Item::Mark(Mark::IsNull),
            Item::Mark(Mark::Negate),
        ]),
        _ => None,
    }
}

/// The alternative of a test before which NOT may stand that the class picks.
pub(crate) fn negatable(class: Class) -> Option<&'static [Item]>
    ensures { option_map (λ items. map item_of items.now) result ≡ predict rules.Negatable class }
{
    match class {
        Class::Between => Some(&[
            Item::Token(Class::Between),
            Item::Rule(Rule::Scalar),
            Item::Token(Class::And),
            Item::Rule(Rule::Scalar),
            Item::Mark(Mark::Between),
        ]),
        Class::In => Some(&[
            Item::Token(Class::In),
            Item::Token(Class::Opening),
            Item::Mark(Mark::List),
            Item::Rule(Rule::Scalar),
            Item::Mark(Mark::Element),
            Item::Rule(Rule::ScalarRest),
            Item::Token(Class::Closing),
            Item::Mark(Mark::Among),
        ]),
        Class::Like => Some(&[
            Item::Token(Class::Like),
            Item::Rule(Rule::Pattern),
            Item::Mark(Mark::Like),
        ]),
        _ => None,
    }
}

/// The alternative of a pattern that the class picks.
pub(crate) fn pattern(class: Class) -> Option<&'static [Item]>
    ensures { option_map (λ items. map item_of items.now) result ≡ predict rules.Pattern class }
{
    match class {
        Class::Text => Some(&[Item::Token(Class::Text), Item::Mark(Mark::Pattern)]),
        Class::Casei => Some(&[
            Item::Token(Class::Casei),
            Item::Token(Class::Opening),
            Item::Rule(Rule::Pattern),
            Item::Token(Class::Closing),
            Item::Mark(Mark::FoldPattern),
        ]),
        _ => None,
    }
}

/// The alternative of a shape that the class picks.
pub(crate) fn shape(class: Class) -> Option<&'static [Item]>
    ensures { option_map (λ items. map item_of items.now) result ≡ predict rules.Shape class }
{
    match class {
        Class::Z | Class::Name | Class::QuotedName => Some(&[
            Item::Rule(Rule::Name),
            Item::Mark(Mark::NamedShape),
        ]),
        Class::Point
        | Class::LineString
        | Class::Polygon
        | Class::MultiPoint
        | Class::MultiLineString
        | Class::MultiPolygon
        | Class::GeometryCollection => Some(&[
            Item::Mark(Mark::Outermost),
            Item::Rule(Rule::Geometry),
            Item::Mark(Mark::Geometry),
        ]),
        Class::Bbox => Some(&[
            Item::Token(Class::Bbox),
            Item::Mark(Mark::Box),
            Item::Token(Class::Opening),
            Item::Token(Class::Number),
            Item::Mark(Mark::Side),
            Item::Token(Class::Comma),
            Item::Token(Class::Number),
            Item::Mark(Mark::Side),
            Item::Token(Class::Comma),
            Item::Token(Class::Number),
            Item::Mark(Mark::Side),
            Item::Token(Class::Comma),
            Item::Token(Class::Number),
            Item::Mark(Mark::Side),
            Item::Rule(Rule::SideRest),
            Item::Token(Class::Closing),
            Item::Mark(Mark::Rectangles),
        ]),
        _ => None,
    }
}

/// The alternative of the last two numbers of a box that the class picks.
pub(crate) fn side_rest(class: Class) -> Option<&'static [Item]>
    ensures { option_map (λ items. map item_of items.now) result ≡ predict rules.SideRest class }
{
    match class {
        Class::Comma => Some(&[
            Item::Token(Class::Comma),
            Item::Token(Class::Number),
            Item::Mark(Mark::Side),
            Item::Token(Class::Comma),
            Item::Token(Class::Number),
            Item::Mark(Mark::Side),
        ]),
        Class::Closing => Some(&[]),
        _ => None,
    }
}

/// The alternative of the other scalars of a list that the class picks.
pub(crate) fn scalar_rest(class: Class) -> Option<&'static [Item]>
    ensures { option_map (λ items. map item_of items.now) result ≡ predict rules.ScalarRest class }
{
    match class {
        Class::Comma => Some(&[
            Item::Token(Class::Comma),
            Item::Rule(Rule::Scalar),
            Item::Mark(Mark::Element),
            Item::Rule(Rule::ScalarRest),
        ]),
        Class::Closing => Some(&[]),
        _ => None,
    }
}

/// The alternative of a scalar that the class picks.
pub(crate) fn scalar(class: Class) -> Option<&'static [Item]>
    ensures { option_map (λ items. map item_of items.now) result ≡ predict rules.Scalar class }
{
    match class {
        Class::True => Some(&[Item::Token(Class::True), Item::Mark(Mark::True)]),
        Class::False => Some(&[Item::Token(Class::False), Item::Mark(Mark::False)]),
        Class::Casei
        | Class::Timestamp
        | Class::Date
        | Class::Z
        | Class::Name
        | Class::QuotedName
        | Class::Text
        | Class::Number => Some(&[Item::Rule(Rule::Operand)]),
        _ => None,
    }
}

/// The alternative of a scalar other than TRUE and FALSE that the class picks.
pub(crate) fn operand(class: Class) -> Option<&'static [Item]>
    ensures { option_map (λ items. map item_of items.now) result ≡ predict rules.Operand class }
{
    match class {
        Class::Z | Class::Name | Class::QuotedName => Some(&[
            Item::Rule(Rule::Name),
            Item::Mark(Mark::Property),
        ]),
        Class::Text => Some(&[Item::Token(Class::Text), Item::Mark(Mark::Text)]),
        Class::Number => Some(&[Item::Token(Class::Number), Item::Mark(Mark::Number)]),
        Class::Timestamp => Some(&[
            Item::Token(Class::Timestamp),
            Item::Token(Class::Opening),
            Item::Token(Class::Text),
            Item::Mark(Mark::Instant),
            Item::Token(Class::Closing),
        ]),
        Class::Date => Some(&[
            Item::Token(Class::Date),
            Item::Token(Class::Opening),
            Item::Token(Class::Text),
            Item::Mark(Mark::Day),
            Item::Token(Class::Closing),
        ]),
        Class::Casei => Some(&[
            Item::Token(Class::Casei),
            Item::Token(Class::Opening),
            Item::Rule(Rule::Scalar),
            Item::Token(Class::Closing),
            Item::Mark(Mark::Fold),
        ]),
        _ => None,
    }
}

/// The alternative of a name that the class picks.
pub(crate) fn name(class: Class) -> Option<&'static [Item]>
    ensures { option_map (λ items. map item_of items.now) result ≡ predict rules.Name class }
{
    match class {
        Class::Name => Some(&[Item::Token(Class::Name)]),
        Class::QuotedName => Some(&[Item::Token(Class::QuotedName)]),
        Class::Z => Some(&[Item::Token(Class::Z)]),
        _ => None,
    }
}
