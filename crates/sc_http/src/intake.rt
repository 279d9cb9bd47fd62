ghost use Rattle.std.specs.Prelude.{◌≡◌, ◌≤◌, ◌^◌, length, IfOk};
ghost use Rattle.sc_http.specs.Intake.{Answers, Counts, StaysOpen, nothing_held};

use crate::fault::HttpEnd;
use crate::next::next;
use crate::request::Request;
use crate::room::CHUNK;
use crate::settle::settle;
use sc_outside::Source;
use std::alloc::{AllocError, Global};
use std::marker::Model;

/// The requests of one connection: the bytes that were taken of it and belong to no request yet.
#[derive(Debug, Drop)]
pub struct Intake {
    held: Vec<u8>,
    at: usize,
    total: u64,
    ghost within: { at ≤ length held.items },
    ghost limited: { total ≤ 2 ^ 40 },
}

impl Model for Intake {
    ghost use Rattle.std.specs.Prelude.{drop};
    ghost use Rattle.sc_http.specs.Intake.{Held};

    ghost Value = { Held };

    ghost view = { λ t. record { bytes = drop t.at t.held.items; taken = t.total } };
}

impl Intake {
    /// An intake that holds nothing, for a connection of which nothing was taken. Takes 8 kB.
    pub fn new(alloc: Global) -> Result<Intake, AllocError>
        ensures { IfOk result (λ intake. intake ≡ nothing_held) }
    {
        let held = Vec::with_capacity(alloc, CHUNK)?;
        Ok(Intake {
            held,
            at: 0,
            total: 0,
        })
    }

    /// The next whole request, or `None` where the input ended between requests. It is the first of the bytes that are
    /// held and taken, however they were cut, and bytes are taken only while those that are held have no whole request;
    /// those behind it stay held for the next call.
    ///
    /// Each end comes only for its cause. `Cut`: the input ended within a request. `BadHead` with `Malformed`: no bytes
    /// can follow that make the first of these bytes a head; with `TooLarge`: there is no head of at most 65,536 bytes
    /// and 64 header lines, and there are 65,536 bytes or 66 line feeds behind the empty lines; the one whose place comes
    /// first is told. `BadLength`: the head's lines state no length of a body that is taken. `ReadFault`: the source
    /// failed in this call. `Spent`: 2^40 bytes were taken of the connection. `OutOfMemory`: memory was wanting. Behind
    /// an end bytes may be lost, so the intake isn't to be asked again.
    ///
    /// However slowly a head comes, it is looked through at most 69 times, so at a constant cost a byte.
    pub fn next_request<S: Source>(
        &mut self,
        alloc: Global,
        source: &mut S,
    ) -> Result<Option<Request>, HttpEnd>
        ensures next { Answers result self.old self.new (S.left source.old) (S.left source.new) (S.ended source.new) (S.faults source.old) (S.faults source.new) }
        ensures counted { Counts self.old.taken self.new.taken (S.left source.old) (S.left source.new) }
        ensures few { self.new.taken ≤ 2 ^ 40 }
        ensures open { StaysOpen result (S.ended source.old) (S.ended source.new) }
        ensures later { S.faults source.old ≤ S.faults source.new }
    {
        self.at = settle(&mut self.held, self.at);
        match next(alloc, &mut self.held, self.at, &mut self.total, source)? {
            Some((request, at)) => {
                self.at = at;
                Ok(Some(request))
            }
            None => Ok(None),
        }
    }
}
