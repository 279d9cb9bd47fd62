ghost use Rattle.std.specs.Prelude.{◌≡◌, ◌∷◌, [], ◌<◌, length, reverse, MatchOption, IfSome};
ghost use Rattle.httparse.specs.Grammar as grammar;
ghost use Rattle.sc_http.specs.Headers as spec;

use crate::request::Header;

/// Whether two names are the same but for the case of ASCII letters.
pub fn same_name(a: &[u8], b: &[u8]) -> bool
    ensures { result ≡ spec.same_name a.now b.now }
{
    a.eq_ignore_ascii_case(b)
}

/// The value of the first header of that name, whatever the case of its letters, and the headers behind it, or `None`
/// exactly where no header has that name.
pub fn find_header<'h>(name: &[u8], headers: &'h [Header]) -> Option<(&'h [u8], &'h [Header])>
    ensures found { MatchOption result
        (spec.values_of name.now headers.now ≡ [])
        (λ found. spec.values_of name.now headers.now ≡ found.0.now ∷ spec.values_of name.now found.1.now) }
    ensures shorter { IfSome result (λ found. length found.1.now < length headers.now) }
{
    let mut rest = headers;
    'finding: while let Some((first, others)) = rest.split_first() {
        if same_name(first.name.bytes(), name) {
            return Some((first.value.as_slice(), others));
        }
        rest = others;
    }
    None
}

/// Whether a byte is a blank or a tab.
fn is_white(byte: u8) -> bool
    ensures { result ≡ grammar.is_ows byte }
{
    byte == b' ' || byte == b'\t'
}

/// The bytes from the first that is no white space.
fn without_front(bytes: &[u8]) -> &[u8]
    ensures { result.now ≡ grammar.skip_ows bytes.now }
{
    let mut rest = bytes;
    'skipping: while let Some((first, others)) = rest.split_first() {
        if !is_white(*first) {
            return rest;
        }
        rest = others;
    }
    rest
}

/// The bytes up to the last that is no white space.
fn without_back(bytes: &[u8]) -> &[u8]
    ensures { reverse result.now ≡ grammar.skip_ows (reverse bytes.now) }
{
    let mut rest = bytes;
    'skipping: while let Some((last, others)) = rest.split_last() {
        if !is_white(*last) {
            return rest;
        }
        rest = others;
    }
    rest
}

/// The bytes without the white space at both ends.
pub fn trimmed(bytes: &[u8]) -> &[u8]
    ensures { result.now ≡ grammar.trim_ows bytes.now }
{
    without_back(without_front(bytes))
}
