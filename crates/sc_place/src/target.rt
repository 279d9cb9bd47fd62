ghost use Rattle.std.specs.Prelude.{◌≡◌, ◌∷◌, [], get_or};
ghost use Rattle.sc_place.specs.Segments as spec;

use sc_base::first_part;

/// The path of a target: what stands before its first question mark.
pub fn path_of(target: &str) -> &str
    ensures { result.now ≡ spec.path_of target.now }
{
    match target.split_once('?') {
        Some((path, _)) => path,
        None => target,
    }
}

/// The query of a target: what stands behind its first question mark, and nothing where there is none.
pub fn query_of(target: &str) -> &str
    ensures { result.now ≡ spec.query_of target.now }
{
    match target.split_once('?') {
        Some((_, query)) => query,
        None => "",
    }
}

/// The segment of a path at this place, counted from 0, or nothing where there is none.
pub(crate) fn segment(path: &[u8], place: usize) -> &[u8]
    ensures { result.now ≡ get_or (spec.segments path.now) place [] }
{
    let (first, rest) = first_part(b'/', path);
    if place == 0 {
        return first;
    }
    match rest {
        Some(rest) => segment(rest, place - 1),
        None => &[],
    }
}
