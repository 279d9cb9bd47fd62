//! Sets of moments: none, or all from a first to a last.
ghost use Rattle.std.specs.Prelude.{◌≡◌, ◌↔◌, IsTrue};
ghost use Rattle.std.specs.Int.{int_min, int_max};
ghost use Rattle.sc_bounds.specs.Moments.{HasMoment, moments_join, moments_meet};

use sc_time::Instant;

/// The earlier of two moments.
fn earlier(a: Instant, b: Instant) -> Instant
    ensures { result ≡ int_min a b }
{
    if b < a { b } else { a }
}

/// The later of two moments.
fn later(a: Instant, b: Instant) -> Instant
    ensures { result ≡ int_max a b }
{
    if b < a { a } else { b }
}

/// Whether a set has the moment.
pub fn has_moment(moments: Option<(Instant, Instant)>, at: Instant) -> bool
    ensures { IsTrue result ↔ HasMoment moments at }
{
    match moments {
        None => false,
        Some((first, last)) => first <= at && at <= last,
    }
}

/// The smallest set that has the moments of both.
pub fn join_moments(
    a: Option<(Instant, Instant)>,
    b: Option<(Instant, Instant)>,
) -> Option<(Instant, Instant)>
    ensures { result ≡ moments_join a b }
{
    match (a, b) {
        (None, other) => other,
        (one, None) => one,
        (Some((first, last)), Some((other_first, other_last))) => {
            Some((earlier(first, other_first), later(last, other_last)))
        }
    }
}

/// The moments that both have.
pub fn meet_moments(
    a: Option<(Instant, Instant)>,
    b: Option<(Instant, Instant)>,
) -> Option<(Instant, Instant)>
    ensures { result ≡ moments_meet a b }
{
    let (first, last) = a?;
    let (other_first, other_last) = b?;
    let first = later(first, other_first);
    let last = earlier(last, other_last);
    if first <= last {
        Some((first, last))
    } else {
        None
    }
}
