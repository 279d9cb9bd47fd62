ghost use Rattle.std.specs.Prelude.{◌≡◌};
ghost use Rattle.std.specs.List.{list_any};
ghost use Rattle.sc_http.specs.Headers as spec;

use crate::headers::{find_header, same_name, trimmed};
use crate::request::Header;
use sc_base::first_part;

#[tactic(auto, unfolding(crate::specs::Headers::connection_name))]
fn connection_name() -> &'static [u8]
    ensures { result.now ≡ spec.connection_name }
{
    b"connection"
}

#[tactic(auto, unfolding(crate::specs::Headers::close_name))]
fn close_name() -> &'static [u8]
    ensures { result.now ≡ spec.close_name }
{
    b"close"
}

/// Whether a member of a list is `close`.
fn is_close(member: &[u8]) -> bool
    ensures { result ≡ spec.is_close member.now }
{
    same_name(trimmed(member), close_name())
}

/// Whether a value, which is a list, has the member `close`.
fn says_close(value: &[u8]) -> bool
    ensures { result ≡ spec.says_close value.now }
{
    let mut left = value;
    'members: loop {
        let (member, rest) = first_part(b',', left);
        if is_close(member) {
            return true;
        }
        let Some(behind) = rest else {
            return false;
        };
        left = behind;
    }
}

/// Whether a line `Connection` says that the connection is to end.
fn asks_to_close(headers: &[Header]) -> bool
    ensures { result ≡ list_any spec.says_close (spec.values_of spec.connection_name headers.now) }
{
    let mut rest = headers;
    'lines: while let Some((value, others)) = find_header(connection_name(), rest) {
        if says_close(value) {
            return true;
        }
        rest = others;
    }
    false
}

/// Whether a connection ends after a request of HTTP/1.MINOR with these headers.
pub fn closes(minor: u8, headers: &[Header]) -> bool
    ensures { result ≡ spec.closes minor headers.now }
{
    minor == 0 || asks_to_close(headers)
}
