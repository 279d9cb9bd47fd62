ghost use Rattle.std.specs.Prelude.{◌≡◌, ◌+◌, ◌<◌, ◌≤◌, ◌^◌, length, IfNone};
ghost use Rattle.sc_http.specs.Intake.{nothing_held};
ghost use Rattle.sc_visit.specs.Visits.{Visitor};
ghost use Rattle.sc_session.specs.declared.ending.ConnEnd.TheVariants as Conn;
ghost use Rattle.sc_session.specs.Session.{Session, Place};
ghost use Rattle.sc_session.specs.Steps.{SoFar, Goes, AnswersOne, Refused, GivesUpWriting, conn_end};

use crate::clerk::Clerk;
use crate::ending::ConnEnd;
use sc_http::{HttpEnd, Intake, Request, unavailable_reply};
use sc_outside::{Sink, Source, write_all};
use std::alloc::Global;

/// Ends a connection for want of memory: the fixed reply to it is written, or a front of it where the sink failed.
pub fn give_up<K: Sink>(sink: &mut K) -> ConnEnd
    ensures result { result ≡ Conn.OutOfMemory }
    ensures wrote { GivesUpWriting (K.written sink.old) (K.written sink.new) (K.faults sink.old) (K.faults sink.new) }
    ensures later { K.faults sink.old ≤ K.faults sink.new }
{
    let _ = write_all(sink, unavailable_reply());
    ConnEnd::OutOfMemory
}

/// How a connection ends where its requests end so.
fn end_by(end: HttpEnd) -> ConnEnd
    ensures { result ≡ conn_end end }
{
    match end {
        HttpEnd::Cut { taken } => ConnEnd::Cut { taken },
        HttpEnd::BadHead { fault } => ConnEnd::BadHead { fault },
        HttpEnd::BadLength { fault } => ConnEnd::BadLength { fault },
        HttpEnd::ReadFault => ConnEnd::ReadFault,
        HttpEnd::Spent => ConnEnd::Spent,
        HttpEnd::OutOfMemory => ConnEnd::OutOfMemory,
    }
}

/// Writes the reply to an end of the requests, if there is one.
fn refuse_end<R, P, T, C: Clerk<R, P, T>, K: Sink>(
    alloc: Global,
    clerk: &C,
    pass: &P,
    sink: &mut K,
    end: HttpEnd,
) -> ConnEnd
    ensures refused { (begun : P) (now : Visitor C.Entry) → C.stands begun pass.now now →
        Refused result end ((C.service clerk.now).refusal end (length now.seen)) (K.written sink.old) (K.written sink.new) (K.faults sink.old) (K.faults sink.new) }
    ensures later { K.faults sink.old ≤ K.faults sink.new }
{
    match clerk.refuse(alloc, pass, &end) {
        Err(_) => give_up(sink),
        Ok(None) => end_by(end),
        Ok(Some(text)) => match write_all(sink, text.bytes()) {
            Ok(()) => end_by(end),
            Err(_) => ConnEnd::WriteFault,
        },
    }
}

/// Answers one request, and tells whether the connection ends with it.
fn answer_one<R, P, T, C: Clerk<R, P, T>, K: Sink>(
    rt: &R,
    alloc: Global,
    clerk: &C,
    pass: &mut P,
    tools: &mut T,
    sink: &mut K,
    request: &Request,
) -> Option<ConnEnd>
    ensures answers { (begun : P) (old : Visitor C.Entry) → C.stands begun pass.old old → (new : Visitor C.Entry) × C.stands begun pass.new new ×
        AnswersOne (C.service clerk.now) result request.now old new (K.written sink.old) (K.written sink.new) (K.faults sink.old) (K.faults sink.new) }
    ensures later { K.faults sink.old ≤ K.faults sink.new }
{
    match clerk.answer(rt, alloc, pass, tools, request) {
        Err(_) => Some(give_up(sink)),
        Ok(text) => match write_all(sink, text.bytes()) {
            Err(_) => Some(ConnEnd::WriteFault),
            Ok(()) => {
                if request.close {
                    Some(ConnEnd::Ended)
                } else {
                    None
                }
            }
        },
    }
}

/// Answers the next request, or ends.
fn serve_next<R, P, T, C: Clerk<R, P, T>, S: Source, K: Sink>(
    rt: &R,
    alloc: Global,
    clerk: &C,
    pass: &mut P,
    tools: &mut T,
    intake: &mut Intake,
    source: &mut S,
    sink: &mut K,
) -> Option<ConnEnd>
    ensures few { intake.new.taken ≤ 2 ^ 40 }
    ensures fewer { IfNone result (length intake.new.bytes + intake.old.taken < intake.new.taken + length intake.old.bytes) }
    ensures goes { (begun : P) (first : Place C.Entry) (mid : Visitor C.Entry) → C.stands begun pass.old mid →
        SoFar (C.service clerk.now) first
        (record { left = S.left source.old; ended = S.ended source.old; faults = S.faults source.old; written = K.written sink.old; write_faults = K.faults sink.old; visitor = mid })
        intake.old →
        (last : Visitor C.Entry) × C.stands begun pass.new last ×
        Goes (C.service clerk.now) first
        (record { left = S.left source.new; ended = S.ended source.new; faults = S.faults source.new; written = K.written sink.new; write_faults = K.faults sink.new; visitor = last })
        intake.new result }
{
    match intake.next_request(alloc, source) {
        Ok(Some(request)) => answer_one(rt, alloc, clerk, pass, tools, sink, &request),
        Ok(None) => Some(ConnEnd::Ended),
        Err(end) => {
            if end == HttpEnd::OutOfMemory {
                return Some(give_up(sink));
            }
            Some(refuse_end::<R, P, T, C, K>(alloc, clerk, pass, sink, end))
        }
    }
}

/// Serves on.
fn serve_on<R, P, T, C: Clerk<R, P, T>, S: Source, K: Sink>(
    rt: &R,
    alloc: Global,
    clerk: &C,
    pass: &mut P,
    tools: &mut T,
    intake: &mut Intake,
    source: &mut S,
    sink: &mut K,
) -> ConnEnd
    requires { intake.old ≡ nothing_held }
    ensures { (begun : P) (first : Place C.Entry) (mid : Visitor C.Entry) → C.stands begun pass.old mid →
        SoFar (C.service clerk.now) first
        (record { left = S.left source.old; ended = S.ended source.old; faults = S.faults source.old; written = K.written sink.old; write_faults = K.faults sink.old; visitor = mid })
        intake.old →
        (last : Visitor C.Entry) × C.stands begun pass.new last ×
        Session (C.service clerk.now) first
        (record { left = S.left source.new; ended = S.ended source.new; faults = S.faults source.new; written = K.written sink.new; write_faults = K.faults sink.new; visitor = last })
        result }
{
    for _ in 0..u64::MAX {
        if let Some(end) = serve_next(rt, alloc, clerk, pass, tools, intake, source, sink) {
            return end;
        }
    }
    // Each request has a byte, and an intake takes at most 2^40 of them.
    unreachable!()
}

/// Serves a connection: its requests are answered one after the other, up to the first that asks to close. It waits where
/// `answer` does.
pub fn serve<R, P, T, C: Clerk<R, P, T>, S: Source, K: Sink>(
    rt: &R,
    alloc: Global,
    clerk: &C,
    pass: &mut P,
    tools: &mut T,
    source: &mut S,
    sink: &mut K,
) -> ConnEnd
    ensures { (begun : P) (old : Visitor C.Entry) → C.stands begun pass.old old → (new : Visitor C.Entry) × C.stands begun pass.new new ×
        Session (C.service clerk.now)
        (record { left = S.left source.old; ended = S.ended source.old; faults = S.faults source.old; written = K.written sink.old; write_faults = K.faults sink.old; visitor = old })
        (record { left = S.left source.new; ended = S.ended source.new; faults = S.faults source.new; written = K.written sink.new; write_faults = K.faults sink.new; visitor = new })
        result }
{
    match Intake::new(alloc) {
        Err(_) => give_up(sink),
        Ok(mut intake) => serve_on(rt, alloc, clerk, pass, tools, &mut intake, source, sink),
    }
}
