ghost use Rattle.std.specs.Prelude.{◌≡◌, ◌==◌, ◌++◌, ◌∷◌, ◌<◌, [], length, position, MatchOption};
ghost use Rattle.sc_outside.specs.Lines.{lines_to_read, without_feed};

/// The place of the first line feed.
fn feed_at(bytes: &[u8]) -> Option<usize>
    ensures { result ≡ position (λ b. b == 10) bytes.now }
{
    bytes.iter().position(|b| *b == b'\n')
}

/// The first line of the bytes, with the line feed that ends it, and what comes after it.
/// The last line may lack its line feed: then it is one only where `all` lines are asked for.
pub fn next_line(bytes: &[u8], all: bool) -> Option<(&[u8], &[u8])>
    ensures { MatchOption result (lines_to_read all bytes.now ≡ []) (λ p. (lines_to_read all bytes.now ≡ p.0.now ∷ lines_to_read all p.1.now) × (bytes.now ≡ p.0.now ++ p.1.now) × (0 < length p.0.now)) }
{
    if let Some(at) = feed_at(bytes) {
        return Some(bytes.split_at(at + 1));
    }
    if !all {
        return None;
    }
    if bytes.is_empty() {
        return None;
    }
    Some((bytes, &[]))
}

/// A line without the line feed that ends it.
pub fn line_without_feed(line: &[u8]) -> &[u8]
    ensures { result.now ≡ without_feed line.now }
{
    match line.strip_suffix(b"\n") {
        Some(front) => front,
        None => line,
    }
}
