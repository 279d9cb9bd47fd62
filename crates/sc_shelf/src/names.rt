ghost use Rattle.std.specs.Prelude.{◌≡◌};
ghost use Rattle.std.specs.Ordering.{int_cmp, nat_cmp, on, then_cmp};
ghost use Rattle.sc_history.specs.Names.{cut_place, name_order};

use sc_cut::{Cut, PartName};
use std::cmp::Ordering;

/// The place of a cut among the three.
fn place_of_cut(cut: Cut) -> u8
    ensures { result ≡ cut_place cut }
{
    match cut {
        Cut::Whole => 0,
        Cut::Year => 1,
        Cut::Month => 2,
    }
}

/// Which of two names comes first where both are of one collection: the one of the lesser cut, then of the lesser key.
fn compare_keys(a: &PartName, b: &PartName) -> Ordering
    ensures { result ≡ then_cmp (on (λ n. cut_place n.cut) nat_cmp) (on (λ n. n.key) int_cmp) a.now b.now }
{
    match place_of_cut(a.cut).cmp(&place_of_cut(b.cut)) {
        Ordering::Less => Ordering::Less,
        Ordering::Equal => a.key.cmp(&b.key),
        Ordering::Greater => Ordering::Greater,
    }
}

/// Which of two names comes first: the one of the lesser collection, then of the lesser cut, then of the lesser key.
pub(crate) fn compare_names(a: &PartName, b: &PartName) -> Ordering
    ensures { result ≡ name_order a.now b.now }
{
    match a.collection.cmp(&b.collection) {
        Ordering::Less => Ordering::Less,
        Ordering::Equal => compare_keys(a, b),
        Ordering::Greater => Ordering::Greater,
    }
}
