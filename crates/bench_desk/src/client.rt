//! A client of the desk, and the sink that counts its replies.
ghost use Rattle.std.specs.Prelude.{None};

use sc_base::{Seq, Text};
use sc_desk::DeskPass;
use sc_notice::NoticePass;
use sc_outside::{Failed, MemSource, OpenGate, Sink};
use sc_serve::serve_connection;
use std::alloc::Global;
use std::sync::Wait;

/// A sink that keeps nothing. It counts the pieces that begin a reply of success; each reply is written in one piece.
#[derive(Drop)]
pub struct CountingSink {
    replies: u64,
}

impl Sink for CountingSink {
    ghost written = { λ _. None };

    ghost faults = { λ _. 0 };

    fn write(&mut self, piece: &[u8]) -> Result<usize, Failed> {
        if piece.starts_with(b"HTTP/1.1 2") {
            self.replies = self.replies.saturating_add(1);
        }
        Ok(piece.len())
    }

    fn flush(&mut self) -> Result<(), Failed> {
        Ok(())
    }
}

/// A connection over memory, and the passes by which it is served.
#[derive(Drop)]
pub struct Client<'d, 'n> {
    pass: DeskPass<'d>,
    telling: NoticePass<'n>,
    source: MemSource,
    sink: CountingSink,
}

impl<'d, 'n> Client<'d, 'n> {
    /// The client whose connection brings these bytes.
    pub fn new(
        alloc: Global,
        pass: DeskPass<'d>,
        telling: NoticePass<'n>,
        bytes: Vec<u8>,
    ) -> Client<'d, 'n> {
        Client {
            pass,
            telling,
            source: MemSource::new(Seq::of(bytes), Seq::new(alloc)),
            sink: CountingSink { replies: 0 },
        }
    }

    /// Serves the connection to its end.
    pub fn serve<R: Wait>(&mut self, rt: &R, alloc: Global, base: &Text) {
        let _end = serve_connection(
            rt,
            alloc,
            &mut self.pass,
            &mut self.telling,
            base,
            &mut self.source,
            &mut self.sink,
            &mut OpenGate,
        );
    }

    /// How many replies of success it was given.
    pub fn replies(&self) -> u64 {
        self.sink.replies
    }
}
