//! Bounds as members of a JSON list.
ghost use Rattle.std.specs.Prelude.{◌≡◌, ◌++◌, ◌∷◌, OnOk, string_bytes};
ghost use Rattle.sc_outcome.specs.Outcome.{bounds_text, box_text, pair_text, place_text, range_text};

use crate::texts::{no_place, no_range};
use itoa::Buffer;
use sc_bounds::{Bounds, GridBox, Instant};
use std::alloc::AllocError;

/// Adds two moments with a comma between them.
#[tactic(auto, unfolding(crate::specs::Outcome::pair_text))]
fn push_moments(out: &mut String, first: Instant, last: Instant) -> Result<(), AllocError>
    ensures { OnOk result (string_bytes out.new ≡ string_bytes out.old ++ pair_text first last) }
{
    let mut buffer = Buffer::new();
    out.push_str(buffer.format(first.nanoseconds()))?;
    out.push(',')?;
    out.push_str(buffer.format(last.nanoseconds()))
}

/// Adds two coordinates with a comma between them.
#[tactic(auto, unfolding(crate::specs::Outcome::pair_text))]
fn push_corner(out: &mut String, x: i64, y: i64) -> Result<(), AllocError>
    ensures { OnOk result (string_bytes out.new ≡ string_bytes out.old ++ pair_text x y) }
{
    let mut buffer = Buffer::new();
    out.push_str(buffer.format(x))?;
    out.push(',')?;
    out.push_str(buffer.format(y))
}

/// Adds the first and the last moment of a range.
fn push_range(out: &mut String, range: Option<(Instant, Instant)>) -> Result<(), AllocError>
    ensures { OnOk result (string_bytes out.new ≡ string_bytes out.old ++ range_text range) }
{
    match range {
        None => out.push_str(no_range()),
        Some((first, last)) => push_moments(out, first, last),
    }
}

/// Adds the sides of a box.
fn push_box(out: &mut String, place: &GridBox) -> Result<(), AllocError>
    ensures { OnOk result (string_bytes out.new ≡ string_bytes out.old ++ box_text place.now) }
{
    push_corner(out, place.west(), place.south())?;
    out.push(',')?;
    push_corner(out, place.east(), place.north())
}

/// Adds the sides of a place.
fn push_place(out: &mut String, place: Option<GridBox>) -> Result<(), AllocError>
    ensures { OnOk result (string_bytes out.new ≡ string_bytes out.old ++ place_text place) }
{
    match place {
        None => out.push_str(no_place()),
        Some(place) => push_box(out, &place),
    }
}

/// Adds the eight members of bounds.
pub(crate) fn push_bounds(out: &mut String, bounds: &Bounds) -> Result<(), AllocError>
    ensures { OnOk result (string_bytes out.new ≡ string_bytes out.old ++ bounds_text bounds.now) }
{
    push_range(out, bounds.starts())?;
    out.push(',')?;
    push_range(out, bounds.ends())?;
    out.push(',')?;
    push_place(out, bounds.place())
}
