ghost use Rattle.std.specs.Prelude.{◌≡◌, IfOk, IfSome};
ghost use Rattle.sc_http.specs.Requests.{HasNoHead};
ghost use Rattle.sc_http.specs.Room.{IsShort};
ghost use Rattle.sc_http.specs.Reading.{BeginsWith, IsMeasured, LookedAt};

use crate::fault::HeadFault;
use crate::head::{Head, Judged, judge};
use crate::lines::{Lines, MOST_HEAD, is_over};
use std::alloc::{AllocError, Global};

/// What bytes are, taken as a head.
#[derive(Debug, Drop)]
pub enum Looked {
    Whole(Head),
    More,
    Bad(HeadFault),
}

/// The head at the front of the bytes, where a whole one is there.
pub fn whole_head(alloc: Global, bytes: &[u8]) -> Result<Option<Head>, AllocError>
    ensures { IfOk result (λ found. IfSome found (λ head. BeginsWith bytes.now head)) }
{
    match judge(alloc, &bytes[..bytes.len().min(MOST_HEAD)])? {
        Judged::Found(head) => Ok(Some(head)),
        _ => Ok(None),
    }
}

/// Looks for a head in the front of the bytes that was counted.
pub fn look(alloc: Global, bytes: &[u8], lines: Lines) -> Result<Looked, AllocError>
    requires { IsMeasured lines bytes.now }
    ensures { IfOk result (λ looked. LookedAt bytes.now looked) }
{
    match judge(alloc, &bytes[..lines.seen])? {
        Judged::Found(head) => Ok(Looked::Whole(head)),
        Judged::Malformed => Ok(Looked::Bad(HeadFault::Malformed)),
        Judged::Unfinished => {
            if is_over(lines) {
                return Ok(Looked::Bad(HeadFault::TooLarge));
            }
            Ok(Looked::More)
        }
    }
}

/// Looks again behind further bytes, but where they have no further line and there is room for more: then no head has
/// come. So a head is looked at no more often than it has lines, whatever the pieces in which it comes.
pub fn look_again(
    alloc: Global,
    bytes: &[u8],
    feeds: usize,
    lines: Lines,
) -> Result<Looked, AllocError>
    requires measured { IsMeasured lines bytes.now }
    requires none { lines.feeds ≡ feeds → IsShort bytes.now → HasNoHead bytes.now }
    ensures { IfOk result (λ looked. LookedAt bytes.now looked) }
{
    if is_over(lines) {
        return look(alloc, bytes, lines);
    }
    if lines.feeds == feeds {
        return Ok(Looked::More);
    }
    look(alloc, bytes, lines)
}
