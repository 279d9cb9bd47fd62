ghost use Rattle.std.specs.Prelude.{◌≡◌, map, option_map};
ghost use Rattle.sc_cqlgrammar.specs.declared.rule.Rule.TheVariants as rules;
ghost use Rattle.sc_cqlgrammar.specs.Table.{predict};
ghost use Rattle.sc_cqlgrammar.specs.Machine.{item_of};

use crate::item::Item;
use crate::mark::Mark;
use crate::rule::Rule;
use sc_grammar::Class;

/// The alternative of a whole text that the class picks.
pub(crate) fn whole(class: Class) -> Option<&'static [Item]>
    ensures { option_map (λ items. map item_of items.now) result ≡ predict rules.Whole class }
{
    match class {
        Class::Not
        | Class::True
        | Class::False
        | Class::Casei
        | Class::SIntersects
        | Class::Timestamp
        | Class::Date
        | Class::Z
        | Class::Name
        | Class::QuotedName
        | Class::Text
        | Class::Number
        | Class::Opening => Some(&[Item::Rule(Rule::Filter), Item::Token(Class::End)]),
        _ => None,
    }
}

/// The alternative of a filter that the class picks.
pub(crate) fn filter(class: Class) -> Option<&'static [Item]>
    ensures { option_map (λ items. map item_of items.now) result ≡ predict rules.Filter class }
{
    match class {
        Class::Not
        | Class::True
        | Class::False
        | Class::Casei
        | Class::SIntersects
        | Class::Timestamp
        | Class::Date
        | Class::Z
        | Class::Name
        | Class::QuotedName
        | Class::Text
        | Class::Number
        | Class::Opening => Some(&[
            Item::Mark(Mark::Chain),
            Item::Rule(Rule::Term),
            Item::Mark(Mark::Link),
            Item::Rule(Rule::OrRest),
            Item::Mark(Mark::Or),
        ]),
        _ => None,
    }
}

/// The alternative of the other terms of a filter that the class picks.
pub(crate) fn or_rest(class: Class) -> Option<&'static [Item]>
    ensures { option_map (λ items. map item_of items.now) result ≡ predict rules.OrRest class }
{
    match class {
        Class::Or => Some(&[
            Item::Token(Class::Or),
            Item::Rule(Rule::Term),
            Item::Mark(Mark::Link),
            Item::Rule(Rule::OrRest),
        ]),
        Class::Closing | Class::End => Some(&[]),
        _ => None,
    }
}

/// The alternative of a term that the class picks.
pub(crate) fn term(class: Class) -> Option<&'static [Item]>
    ensures { option_map (λ items. map item_of items.now) result ≡ predict rules.Term class }
{
    match class {
        Class::Not
        | Class::True
        | Class::False
        | Class::Casei
        | Class::SIntersects
        | Class::Timestamp
        | Class::Date
        | Class::Z
        | Class::Name
        | Class::QuotedName
        | Class::Text
        | Class::Number
        | Class::Opening => Some(&[
            Item::Mark(Mark::Chain),
            Item::Rule(Rule::Factor),
            Item::Mark(Mark::Link),
            Item::Rule(Rule::AndRest),
            Item::Mark(Mark::And),
        ]),
        _ => None,
    }
}

/// The alternative of the other factors of a term that the class picks.
pub(crate) fn and_rest(class: Class) -> Option<&'static [Item]>
    ensures { option_map (λ items. map item_of items.now) result ≡ predict rules.AndRest class }
{
    match class {
        Class::And => Some(&[
            Item::Token(Class::And),
            Item::Rule(Rule::Factor),
            Item::Mark(Mark::Link),
            Item::Rule(Rule::AndRest),
        ]),
        Class::Or | Class::Closing | Class::End => Some(&[]),
        _ => None,
    }
}

/// The alternative of a factor that the class picks.
pub(crate) fn factor(class: Class) -> Option<&'static [Item]>
    ensures { option_map (λ items. map item_of items.now) result ≡ predict rules.Factor class }
{
    match class {
        Class::Not => Some(&[
            Item::Token(Class::Not),
            Item::Rule(Rule::Primary),
            Item::Mark(Mark::Negate),
        ]),
        Class::True
        | Class::False
        | Class::Casei
        | Class::SIntersects
        | Class::Timestamp
        | Class::Date
        | Class::Z
        | Class::Name
        | Class::QuotedName
        | Class::Text
        | Class::Number
        | Class::Opening => Some(&[Item::Rule(Rule::Primary)]),
        _ => None,
    }
}

/// The alternative of a primary that the class picks.
pub(crate) fn primary(class: Class) -> Option<&'static [Item]>
    ensures { option_map (λ items. map item_of items.now) result ≡ predict rules.Primary class }
{
    match class {
        Class::Opening => Some(&[
            Item::Token(Class::Opening),
            Item::Rule(Rule::Filter),
            Item::Token(Class::Closing),
        ]),
        Class::True => Some(&[
            Item::Token(Class::True),
            Item::Mark(Mark::True),
            Item::Rule(Rule::TruthRest),
        ]),
        Class::False => Some(&[
            Item::Token(Class::False),
            Item::Mark(Mark::False),
            Item::Rule(Rule::TruthRest),
        ]),
        Class::Casei
        | Class::Timestamp
        | Class::Date
        | Class::Z
        | Class::Name
        | Class::QuotedName
        | Class::Text
        | Class::Number => Some(&[Item::Rule(Rule::Operand), Item::Rule(Rule::Test)]),
        Class::SIntersects => Some(&[
            Item::Token(Class::SIntersects),
            Item::Token(Class::Opening),
            Item::Rule(Rule::Shape),
            Item::Token(Class::Comma),
            Item::Rule(Rule::Shape),
            Item::Token(Class::Closing),
            Item::Mark(Mark::Meets),
        ]),
        _ => None,
    }
}

/// The alternative of what stands behind TRUE or FALSE that the class picks.
pub(crate) fn truth_rest(class: Class) -> Option<&'static [Item]>
    ensures { option_map (λ items. map item_of items.now) result ≡ predict rules.TruthRest class }
{
    match class {
        Class::Not
        | Class::Like
        | Class::Between
        | Class::In
        | Class::Is
        | Class::Equal
        | Class::NotEqual
        | Class::Less
        | Class::Greater
        | Class::AtMost
        | Class::AtLeast => Some(&[Item::Rule(Rule::Test)]),
        Class::Or | Class::And | Class::Closing | Class::End => Some(&[Item::Mark(Mark::Constant)]),
        _ => None,
    }
}
