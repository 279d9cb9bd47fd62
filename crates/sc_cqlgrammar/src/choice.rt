ghost use Rattle.std.specs.Prelude.{◌≡◌, map, option_map};
ghost use Rattle.sc_cqlgrammar.specs.Table.{predict};
ghost use Rattle.sc_cqlgrammar.specs.Machine.{item_of};

use crate::item::Item;
use crate::rule::Rule;
use crate::{filters, geometries, predicates};
use sc_grammar::Class;

/// The alternative of a rule that the class picks.
pub(crate) fn alternative(rule: Rule, class: Class) -> Option<&'static [Item]>
    ensures { option_map (λ items. map item_of items.now) result ≡ predict rule class }
{
    match rule {
        Rule::Whole => filters::whole(class),
        Rule::Filter => filters::filter(class),
        Rule::OrRest => filters::or_rest(class),
        Rule::Term => filters::term(class),
        Rule::AndRest => filters::and_rest(class),
        Rule::Factor => filters::factor(class),
        Rule::Primary => filters::primary(class),
        Rule::TruthRest => filters::truth_rest(class),
        Rule::Test => predicates::test(class),
        Rule::NullTest => predicates::null_test(class),
        Rule::Negatable => predicates::negatable(class),
        Rule::ScalarRest => predicates::scalar_rest(class),
        Rule::Scalar => predicates::scalar(class),
        Rule::Operand => predicates::operand(class),
        Rule::Name => predicates::name(class),
        Rule::Pattern => predicates::pattern(class),
        Rule::Shape => predicates::shape(class),
        Rule::SideRest => predicates::side_rest(class),
        Rule::Geometry => geometries::geometry(class),
        Rule::ZWord => geometries::z_word(class),
        Rule::GeometryRest => geometries::geometry_rest(class),
        Rule::Member => geometries::member(class),
        Rule::MemberRest => geometries::member_rest(class),
        Rule::Line => geometries::line(class),
        Rule::LineRest => geometries::line_rest(class),
        Rule::Area => geometries::area(class),
        Rule::AreaRest => geometries::area_rest(class),
        Rule::Ring => geometries::ring(class),
        Rule::RingRest => geometries::ring_rest(class),
        Rule::Position => geometries::position(class),
        Rule::Height => geometries::height(class),
        Rule::PositionRest => geometries::position_rest(class),
    }
}
