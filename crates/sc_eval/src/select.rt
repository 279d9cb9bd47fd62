ghost use Rattle.std.specs.Prelude.{◌≡◌, IfOk, OnErr, IsTrue};
ghost use Rattle.sc_eval.specs.Selection.{folds_if_there, is_during, is_from, is_listed, is_one_of, is_to, is_true, is_true_of};

use crate::truth::eval;
use sc_base::{Seq, Text};
use sc_expr::{Filter, Truth3};
use sc_item::Item;
use sc_time::{Instant, Range};
use std::alloc::{AllocError, Global};

/// Whether a name is one of these.
fn is_one_of(names: &[Text], name: &Text) -> bool
    ensures { result ≡ is_one_of names.now name.now }
{
    for other in names {
        if name == other {
            return true;
        }
    }
    false
}

/// Whether a name is one of these, where there is a list.
pub fn is_listed(names: &Option<Seq<Text>>, name: &Text) -> bool
    ensures { result ≡ is_listed names.now name.now }
{
    match names {
        None => true,
        Some(names) => is_one_of(names.as_slice(), name),
    }
}

fn is_from(first: Option<Instant>, at: Instant) -> bool
    ensures { result ≡ is_from first at }
{
    match first {
        None => true,
        Some(first) => first.nanoseconds() <= at.nanoseconds(),
    }
}

fn is_to(last: Option<Instant>, at: Instant) -> bool
    ensures { result ≡ is_to last at }
{
    match last {
        None => true,
        Some(last) => at.nanoseconds() <= last.nanoseconds(),
    }
}

pub(crate) fn is_during(range: Option<Range>, item: &Item) -> bool
    ensures { result ≡ is_during range item.now }
{
    match range {
        None => true,
        Some(range) => is_from(range.from(), item.end()) && is_to(range.to(), item.start()),
    }
}

fn is_true(truth: Truth3) -> bool
    ensures { result ≡ is_true truth }
{
    match truth {
        Truth3::True => true,
        _ => false,
    }
}

pub(crate) fn is_true_of(
    alloc: Global,
    filter: &Option<Filter>,
    item: &Item,
) -> Result<bool, AllocError>
    ensures value { IfOk result (λ b. b ≡ is_true_of filter.now item.now) }
    ensures memory { OnErr result (IsTrue (folds_if_there filter.now)) }
{
    match filter {
        None => Ok(true),
        Some(filter) => Ok(is_true(eval(alloc, filter, item)?)),
    }
}
