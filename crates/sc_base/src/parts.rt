ghost use Rattle.std.specs.Prelude.{◌≡◌, ◌∷◌, [], ◌==◌, ◌<◌, length, position, MatchOption, IfSome};
ghost use Rattle.sc_base.specs.Parts.{parts_between};

/// The place of the first such byte.
fn place_of(mark: u8, bytes: &[u8]) -> Option<usize>
    ensures { result ≡ position (λ b. b == mark) bytes.now }
{
    bytes.iter().position(|b| *b == mark)
}

/// The first part of the bytes between the places where the byte `mark` stands, and what stands behind the first such
/// place, or `None` exactly where the byte doesn't stand in them: then the part is all of them.
pub fn first_part(mark: u8, bytes: &[u8]) -> (&[u8], Option<&[u8]>)
    ensures parts { MatchOption result.1
        (parts_between mark bytes.now ≡ result.0.now ∷ [])
        (λ rest. parts_between mark bytes.now ≡ result.0.now ∷ parts_between mark rest.now) }
    ensures shorter { IfSome result.1 (λ rest. length rest.now < length bytes.now) }
{
    match place_of(mark, bytes) {
        Some(at) => (&bytes[..at], Some(&bytes[at + 1..])),
        None => (bytes, None),
    }
}
