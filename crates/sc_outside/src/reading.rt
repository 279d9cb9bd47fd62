ghost use Rattle.std.specs.Prelude.{◌≤◌, length, IfOk};
ghost use Rattle.std.specs.Io.KnownBytes.{Consumes};
ghost use Rattle.sc_outside.specs.Reading.{EndedSo};

use crate::{Seq, Source};
use std::alloc::{AllocError, Global};

/// How reading ended.
#[derive(Clone, Copy, Debug, PartialEq, Eq)]
pub enum ReadEnd {
    /// The source ended.
    Ended,
    /// The source failed.
    Failed,
    /// More than the most bytes were taken, and the source hasn't ended.
    Full,
}

/// The bytes that were taken from a source, and how reading ended.
#[derive(Debug, Drop)]
pub struct Taken {
    pub bytes: Seq<u8>,
    pub end: ReadEnd,
}

/// Reads to the source's end, to its first fault, or until more than `most` bytes are there.
/// Where memory is wanting, some bytes may be taken and lost.
pub fn read_all<S: Source>(alloc: Global, source: &mut S, most: usize) -> Result<Taken, AllocError>
    ensures taken { IfOk result (λ t. Consumes (S.left source.old) (S.left source.new) t.bytes) }
    ensures end { IfOk result (λ t. EndedSo t.end most (S.ended source.new) (S.faults source.old) (S.faults source.new) (length t.bytes)) }
    ensures later { S.faults source.old ≤ S.faults source.new }
{
    let mut bytes = Vec::new(alloc);
    let mut buf = [0u8; 65536];
    'reading: while bytes.len() <= most {
        match source.read(&mut buf) {
            Ok(0) => {
                return Ok(Taken {
                    bytes: Seq::of(bytes),
                    end: ReadEnd::Ended,
                });
            }
            Ok(count) => bytes.extend_from_slice(&buf[..count])?,
            Err(_) => {
                return Ok(Taken {
                    bytes: Seq::of(bytes),
                    end: ReadEnd::Failed,
                });
            }
        }
    }
    Ok(Taken {
        bytes: Seq::of(bytes),
        end: ReadEnd::Full,
    })
}
