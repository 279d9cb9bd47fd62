//! The numbers of values, counted from 0 in the order of the text. They are needed of what is at fault alone, so they are
//! counted on the way back from there: each value that stands before it once.
ghost use Rattle.std.specs.Prelude.{◌≡◌, map, sum};
ghost use Rattle.sc_json.specs.declared.tree.Member.{out-Member};
ghost use Rattle.sc_json.specs.Views.{values};
ghost use Rattle.sc_expr.specs.Filter.{in_bits};
ghost use Rattle.sc_cqljson.specs.Heads.{number_of, number_from};
ghost use Rattle.sc_cqljson.specs.Told.{behind, number_behind};

use sc_expr::CqlFault;
use sc_json::{Json, Member};

/// The number of values in a tree, itself among them.
#[cycle(values)]
fn values_in(tree: &Json) -> u64
    ensures { result ≡ in_bits 64 (values tree.now) }
{
    match tree {
        Json::List(elements) => values_of(elements.as_slice()).saturating_add(1),
        Json::Object(members) => values_of_members(members.as_slice()).saturating_add(1),
        _ => 1,
    }
}

/// The number of values in trees.
#[cycle(values)]
fn values_of(trees: &[Json]) -> u64
    ensures { result ≡ in_bits 64 (sum (map values trees.now)) }
{
    let mut total = 0u64;
    for tree in trees {
        total = total.saturating_add(values_in(tree));
    }
    total
}

#[cycle(values)]
fn values_of_members(members: &[Member]) -> u64
    ensures { result ≡ in_bits 64 (sum (map (λ m. values (out-Member m).value) members.now)) }
{
    let mut total = 0u64;
    for member in members {
        total = total.saturating_add(values_in(&member.value));
    }
    total
}

fn number_in(members: &[Member], name: &str) -> u64
    ensures { result ≡ in_bits 64 (number_from 1 members.now name.now) }
{
    let mut number = 1u64;
    for member in members {
        if member.name.as_str() == name {
            return number;
        }
        number = number.saturating_add(values_in(&member.value));
    }
    number
}

/// The number of the value of an object's first member of this name, where the object has 0.
#[tactic(auto, unfolding(crate::specs::Heads::number_of))]
pub(crate) fn number_of(tree: &Json, name: &str) -> u64
    ensures { result ≡ in_bits 64 (number_of tree.now name.now) }
{
    match tree {
        Json::Object(members) => number_in(members.as_slice(), name),
        _ => 1,
    }
}

/// The number of an element that has these before it, where the list has 0.
pub(crate) fn number_behind(before: &[Json]) -> u64
    ensures { result ≡ in_bits 64 (number_behind before.now) }
{
    values_of(before).saturating_add(1)
}

/// The fault of a value that stands so many values later.
pub(crate) fn behind(count: u64, fault: CqlFault) -> CqlFault
    ensures { result ≡ behind count fault }
{
    match fault {
        CqlFault::Syntax { at } => CqlFault::Syntax {
            at: at.saturating_add(count),
        },
        CqlFault::BadLiteral { at } => CqlFault::BadLiteral {
            at: at.saturating_add(count),
        },
        _ => fault,
    }
}
