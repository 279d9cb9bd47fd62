ghost use Rattle.std.specs.Prelude.{◌≡◌, ◌++◌, IfOk};
ghost use Rattle.sc_cqlvalue.specs.Literals as literals;

use sc_base::Text;
use sc_decimal::Dec;
use sc_grammar::{Class, Token};
use sc_time::{Instant, read_date, read_instant};
use std::alloc::{AllocError, Global};

/// The bytes of a token, as far as the text has them.
pub(crate) fn bytes_of(text: &[u8], token: Token) -> &[u8]
    ensures { result.now ≡ literals.bytes_of text.now token }
{
    let (_, behind) = text.split_at(token.from.min(text.len()));
    let len = token.to.saturating_sub(token.from);
    let (front, _) = behind.split_at(len.min(behind.len()));
    front
}

/// What stands within quotes.
fn within(bytes: &[u8]) -> &[u8]
    ensures { result.now ≡ literals.within bytes.now }
{
    if bytes.len() < 2 {
        return &[];
    }
    &bytes[1..bytes.len() - 1]
}

/// Whether a quote stands second, behind a quote or the mark.
fn is_pair(quote: u8, mark: u8, bytes: &[u8]) -> bool
    ensures { result ≡ literals.is_pair quote mark bytes.now }
{
    match bytes {
        [first, second, ..] => (*first == quote || *first == mark) && *second == quote,
        _ => false,
    }
}

/// The bytes with one quote for each pair.
fn unescaped(alloc: Global, quote: u8, mark: u8, bytes: &[u8]) -> Result<Vec<u8>, AllocError>
    ensures { IfOk result (λ plain. plain.items ≡ literals.unescaped quote mark bytes.now) }
{
    let mut plain = Vec::with_capacity(alloc, bytes.len())?;
    let mut at = 0;
    while at < bytes.len() {
        let (_, rest) = bytes.split_at(at);
        if is_pair(quote, mark, rest) {
            plain.push(quote)?;
            at += 2;
        } else {
            plain.push(bytes[at])?;
            at += 1;
        }
    }
    Ok(plain)
}

/// The text of a token in quotes, as bytes.
fn text_bytes(alloc: Global, bytes: &[u8]) -> Result<Vec<u8>, AllocError>
    ensures { IfOk result (λ plain. plain.items ≡ literals.text_bytes bytes.now) }
{
    unescaped(alloc, b'\'', b'\\', within(bytes))
}

/// The text of a token in quotes; `None` where it isn't UTF-8.
pub(crate) fn text_of(alloc: Global, bytes: &[u8]) -> Result<Option<Text>, AllocError>
    ensures { IfOk result (λ text. text ≡ literals.text_of bytes.now) }
{
    Ok(Text::of_vec(text_bytes(alloc, bytes)?))
}

fn name_bytes(alloc: Global, class: Class, bytes: &[u8]) -> Result<Vec<u8>, AllocError>
    ensures { IfOk result (λ plain. plain.items ≡ literals.name_bytes class bytes.now) }
{
    match class {
        Class::QuotedName => unescaped(alloc, b'"', b'"', within(bytes)),
        _ => Vec::from_slice(alloc, bytes),
    }
}

/// The name that a token is; `None` where it is empty or isn't UTF-8.
pub(crate) fn name_of(alloc: Global, class: Class, bytes: &[u8]) -> Result<Option<Text>, AllocError>
    ensures { IfOk result (λ name. name ≡ literals.name_of class bytes.now) }
{
    let name = name_bytes(alloc, class, bytes)?;
    if name.is_empty() {
        return Ok(None);
    }
    Ok(Text::of_vec(name))
}

/// The number that a token is; `None` where it is too wide.
pub(crate) fn dec_of(bytes: &[u8]) -> Option<Dec>
    ensures { result ≡ literals.dec_of bytes.now }
{
    Dec::read(bytes).ok()
}

/// The instant that the text of a token is.
pub(crate) fn instant_of(alloc: Global, bytes: &[u8]) -> Result<Option<Instant>, AllocError>
    ensures { IfOk result (λ instant. instant ≡ literals.instant_of bytes.now) }
{
    let text = text_bytes(alloc, bytes)?;
    Ok(read_instant(text.as_slice()).ok())
}

/// The midnight at which the day begins that the text of a token is.
pub(crate) fn day_of(alloc: Global, bytes: &[u8]) -> Result<Option<Instant>, AllocError>
    ensures { IfOk result (λ day. day ≡ literals.day_of bytes.now) }
{
    let text = text_bytes(alloc, bytes)?;
    Ok(read_date(text.as_slice()).ok())
}
