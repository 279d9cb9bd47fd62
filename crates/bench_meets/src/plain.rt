//! The yardstick: whether geometries of areas meet, by all pairs of segments, and of positions and areas.
use sc_base::Seq;
use sc_geom::{Geom, Pt};
use std::alloc::{AllocError, Global};

/// A geometry's segments, positions and areas. Points that stand alone aren't among them.
#[derive(Drop)]
pub struct Lists {
    segments: Vec<(Pt, Pt)>,
    positions: Vec<Pt>,
    areas: Vec<Vec<(Pt, Pt)>>,
}

fn push_path(
    path: &[Pt],
    segments: &mut Vec<(Pt, Pt)>,
    positions: &mut Vec<Pt>,
) -> Result<(), AllocError> {
    let mut last: Option<Pt> = None;
    for at in path {
        positions.push(*at)?;
        if let Some(from) = last {
            segments.push((from, *at))?;
        }
        last = Some(*at);
    }
    Ok(())
}

fn push_rings(alloc: Global, rings: &[Seq<Pt>], lists: &mut Lists) -> Result<(), AllocError> {
    let mut edges = Vec::new(alloc);
    for ring in rings {
        push_path(ring.as_slice(), &mut edges, &mut lists.positions)?;
    }
    for edge in edges.as_slice() {
        lists.segments.push(*edge)?;
    }
    lists.areas.push(edges)?;
    Ok(())
}

/// The lists of a geometry.
pub fn lists_of(alloc: Global, geom: &Geom) -> Result<Lists, AllocError> {
    let mut lists = Lists {
        segments: Vec::new(alloc),
        positions: Vec::new(alloc),
        areas: Vec::new(alloc),
    };
    for line in geom.lines() {
        push_path(line.as_slice(), &mut lists.segments, &mut lists.positions)?;
    }
    for rings in geom.areas() {
        push_rings(alloc, rings.as_slice(), &mut lists)?;
    }
    Ok(lists)
}

fn side(segment: (Pt, Pt), at: Pt) -> i128 {
    let (from, to) = segment;
    let east = i128::from(to.x.wrapping_sub(from.x));
    let north = i128::from(to.y.wrapping_sub(from.y));
    let east_at = i128::from(at.x.wrapping_sub(from.x));
    let north_at = i128::from(at.y.wrapping_sub(from.y));
    let left = east.wrapping_mul(north_at);
    let right = north.wrapping_mul(east_at);
    left.wrapping_sub(right)
}

fn are_on_one_side(line: (Pt, Pt), other: (Pt, Pt)) -> bool {
    let from = side(line, other.0);
    let to = side(line, other.1);
    (from > 0 && to > 0) || (from < 0 && to < 0)
}

fn overlap(a: (i64, i64), b: (i64, i64)) -> bool {
    a.0.min(a.1) <= b.0.max(b.1) && b.0.min(b.1) <= a.0.max(a.1)
}

fn touches(a: (Pt, Pt), b: (Pt, Pt)) -> bool {
    if are_on_one_side(a, b) || are_on_one_side(b, a) {
        return false;
    }
    overlap((a.0.x, a.1.x), (b.0.x, b.1.x)) && overlap((a.0.y, a.1.y), (b.0.y, b.1.y))
}

fn is_inside(at: Pt, edges: &[(Pt, Pt)]) -> bool {
    let mut odd = false;
    for edge in edges {
        let (from, to) = *edge;
        if (from.y > at.y) != (to.y > at.y) && (side(*edge, at) > 0) == (to.y > from.y) {
            odd = !odd;
        }
    }
    odd
}

fn any_inside(positions: &[Pt], areas: &[Vec<(Pt, Pt)>]) -> bool {
    for at in positions {
        for edges in areas {
            if is_inside(*at, edges.as_slice()) {
                return true;
            }
        }
    }
    false
}

/// Whether they meet, where both have lines and areas alone.
pub fn meets(a: &Lists, b: &Lists) -> bool {
    for one in a.segments.as_slice() {
        for other in b.segments.as_slice() {
            if touches(*one, *other) {
                return true;
            }
        }
    }
    any_inside(a.positions.as_slice(), b.areas.as_slice())
        || any_inside(b.positions.as_slice(), a.areas.as_slice())
}
