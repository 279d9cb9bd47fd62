ghost use Rattle.std.specs.Prelude.{◌≡◌, ◌+◌, ◌<◌, ◌≤◌, ◌^◌, ◌∷◌, [], MatchBool, ◌⊎◌, length};
ghost use Rattle.sc_http.specs.Room.{feeds_behind, begun_after};
ghost use Rattle.sc_http.specs.Reading.{CountsOn, no_lines};

/// The most bytes of a head.
pub const MOST_HEAD: usize = 65_536;

/// The line feeds of a head with the most lines: its first line, 64 header lines and the empty line.
const MOST_FEEDS: usize = 66;

/// How many bytes were seen, how many line feeds among them came behind the first byte that is neither CR nor LF, and
/// whether that came. The count ends where a head within the limits would have ended.
#[derive(Clone, Copy, Debug)]
pub struct Lines {
    pub begun: bool,
    pub feeds: usize,
    pub seen: usize,
}

/// The count before any byte.
pub const NO_LINES: Lines = Lines {
    begun: false,
    feeds: 0,
    seen: 0,
};

/// Whether the bytes seen are as many as a head may have.
pub fn is_over(lines: Lines) -> bool
    ensures { MatchBool result ((65536 ≤ lines.seen) ⊎ (66 ≤ lines.feeds)) ((lines.seen < 65536) × (lines.feeds < 66)) }
{
    lines.seen >= MOST_HEAD || lines.feeds >= MOST_FEEDS
}

/// The count with one byte more.
fn with_byte(lines: Lines, byte: u8) -> Lines
    requires seen { lines.seen < 65536 }
    requires feeds { lines.feeds < 66 }
    ensures feeds { result.feeds ≡ lines.feeds + feeds_behind lines.begun (byte ∷ []) }
    ensures begun { result.begun ≡ begun_after lines.begun (byte ∷ []) }
    ensures seen { result.seen ≡ lines.seen + 1 }
{
    let seen = lines.seen + 1;
    match byte {
        b'\n' => Lines {
            begun: lines.begun,
            feeds: lines.feeds + usize::from(lines.begun),
            seen,
        },
        b'\r' => Lines { seen, ..lines },
        _ => Lines {
            begun: true,
            feeds: lines.feeds,
            seen,
        },
    }
}

/// The count with further bytes.
pub fn count_on(lines: Lines, bytes: &[u8]) -> Lines
    ensures { CountsOn lines bytes.now result }
{
    let mut count = lines;
    let mut rest = bytes;
    'counting: loop {
        if count.seen >= MOST_HEAD {
            return count;
        }
        if count.feeds >= MOST_FEEDS {
            return count;
        }
        let Some((first, others)) = rest.split_first() else {
            return count;
        };
        count = with_byte(count, *first);
        rest = others;
    }
}
