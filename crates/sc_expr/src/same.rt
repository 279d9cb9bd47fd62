ghost use Rattle.std.specs.Prelude.{◌≡◌, ◌↔◌, IsTrue};

use crate::expr::Expr;
use crate::scalar::{Pattern, Scalar, Shape};
use sc_base::Seq;
use sc_geom::{Geom, Pt};

fn is_same_position(a: &Pt, b: &Pt) -> bool
    ensures { IsTrue result ↔ (a.now ≡ b.now) }
{
    a.x == b.x && a.y == b.y
}

fn are_same_positions(a: &[Pt], b: &[Pt]) -> bool
    ensures { IsTrue result ↔ (a.now ≡ b.now) }
{
    if a.len() != b.len() {
        return false;
    }
    for (i, position) in a.iter().enumerate() {
        if !is_same_position(position, &b[i]) {
            return false;
        }
    }
    true
}

/// Whether two lists of lines, or of rings, are the same.
fn are_same_lines(a: &[Seq<Pt>], b: &[Seq<Pt>]) -> bool
    ensures { IsTrue result ↔ (a.now ≡ b.now) }
{
    if a.len() != b.len() {
        return false;
    }
    for (i, line) in a.iter().enumerate() {
        if !are_same_positions(line.as_slice(), b[i].as_slice()) {
            return false;
        }
    }
    true
}

fn are_same_areas(a: &[Seq<Seq<Pt>>], b: &[Seq<Seq<Pt>>]) -> bool
    ensures { IsTrue result ↔ (a.now ≡ b.now) }
{
    if a.len() != b.len() {
        return false;
    }
    for (i, area) in a.iter().enumerate() {
        if !are_same_lines(area.as_slice(), b[i].as_slice()) {
            return false;
        }
    }
    true
}

fn is_same_geometry(a: &Geom, b: &Geom) -> bool
    ensures { IsTrue result ↔ (a.now ≡ b.now) }
{
    are_same_positions(a.points(), b.points())
        && are_same_lines(a.lines(), b.lines())
        && are_same_areas(a.areas(), b.areas())
}

fn is_same_shape(a: &Shape, b: &Shape) -> bool
    ensures { IsTrue result ↔ (a.now ≡ b.now) }
{
    match (a, b) {
        (Shape::Prop(name), Shape::Prop(other)) => name.as_str() == other.as_str(),
        (Shape::Geom(geometry), Shape::Geom(other)) => is_same_geometry(geometry, other),
        _ => false,
    }
}

fn is_same_pattern(a: &Pattern, b: &Pattern) -> bool
    ensures { IsTrue result ↔ (a.now ≡ b.now) }
{
    a.folded == b.folded && a.text.as_str() == b.text.as_str()
}

fn is_same_scalar(a: &Scalar, b: &Scalar) -> bool
    ensures { IsTrue result ↔ (a.now ≡ b.now) }
{
    match (a, b) {
        (Scalar::Prop(name), Scalar::Prop(other)) => name.as_str() == other.as_str(),
        (Scalar::Text(text), Scalar::Text(other)) => text.as_str() == other.as_str(),
        (Scalar::Number(number), Scalar::Number(other)) => *number == *other,
        (Scalar::Truth(truth), Scalar::Truth(other)) => truth == other,
        (Scalar::Moment(moment), Scalar::Moment(other)) => {
            moment.nanoseconds() == other.nanoseconds()
        }
        (Scalar::Folded(scalar), Scalar::Folded(other)) => {
            is_same_scalar(scalar.get(), other.get())
        }
        _ => false,
    }
}

fn are_same_scalars(a: &[Scalar], b: &[Scalar]) -> bool
    ensures { IsTrue result ↔ (a.now ≡ b.now) }
{
    if a.len() != b.len() {
        return false;
    }
    for (i, scalar) in a.iter().enumerate() {
        if !is_same_scalar(scalar, &b[i]) {
            return false;
        }
    }
    true
}

#[cycle(same)]
fn are_same_members(a: &[Expr], b: &[Expr]) -> bool
    ensures { IsTrue result ↔ (a.now ≡ b.now) }
{
    if a.len() != b.len() {
        return false;
    }
    for (i, member) in a.iter().enumerate() {
        if !is_same_expr(member, &b[i]) {
            return false;
        }
    }
    true
}

/// Whether two expressions are the same, part by part.
#[cycle(same)]
pub(crate) fn is_same_expr(a: &Expr, b: &Expr) -> bool
    ensures { IsTrue result ↔ (a.now ≡ b.now) }
{
    match (a, b) {
        (Expr::Const(truth), Expr::Const(other)) => truth == other,
        (Expr::And(members), Expr::And(others)) => {
            are_same_members(members.as_slice(), others.as_slice())
        }
        (Expr::Or(members), Expr::Or(others)) => {
            are_same_members(members.as_slice(), others.as_slice())
        }
        (Expr::Not(member), Expr::Not(other)) => is_same_expr(member.get(), other.get()),
        (Expr::Compare(op, x, y), Expr::Compare(other, z, w)) => {
            *op == *other && is_same_scalar(x, z) && is_same_scalar(y, w)
        }
        (Expr::IsNull(operand), Expr::IsNull(other)) => is_same_scalar(operand, other),
        (Expr::Between(x, low, high), Expr::Between(y, least, most)) => {
            is_same_scalar(x, y) && is_same_scalar(low, least) && is_same_scalar(high, most)
        }
        (Expr::Among(operand, listed), Expr::Among(other, others)) => {
            is_same_scalar(operand, other) && are_same_scalars(listed.as_slice(), others.as_slice())
        }
        (Expr::Like(operand, pattern), Expr::Like(other, others)) => {
            is_same_scalar(operand, other) && is_same_pattern(pattern, others)
        }
        (Expr::Meets(x, y), Expr::Meets(z, w)) => is_same_shape(x, z) && is_same_shape(y, w),
        _ => false,
    }
}
