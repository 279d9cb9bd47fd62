ghost use Rattle.std.specs.Prelude.{◌≡◌, ◌<◌, [], All};
ghost use Rattle.sc_catalog.specs.declared.entry.Entry.{Entry};
ghost use Rattle.sc_visit.specs.Visits.{Visitor};
ghost use Rattle.sc_session.specs.Session.{Session};
ghost use Rattle.sc_serve.specs.Service.{api, api_of};
ghost use Rattle.sc_serve.specs.Desks.{IsAlone};
ghost use Rattle.sc_serve.specs.Notices.{TellsOfLoads};

use crate::answering::Api;
use crate::desk::Desk;
use crate::lone::LoneDesk;
use crate::notifying::NotifyingPass;
use sc_base::Text;
use sc_desk::DeskPass;
use sc_notice::NoticePass;
use sc_outside::{Gate, Sink, Source, Steps};
use sc_route::Routes;
use sc_session::{ConnEnd, give_up, serve};
use std::alloc::Global;
use std::marker::Brand;
use std::sync::Wait;
use std::sync::ledger::{Blank, Ledger};

/// Serves one connection by turns at a desk. What searches cost is counted over the ledger that is handed in.
fn serve_counting<R, D: Desk<R>, S: Source, K: Sink, L: Ledger>(
    rt: &R,
    alloc: Global,
    desk: &mut D,
    base: &Text,
    source: &mut S,
    sink: &mut K,
    blank: Blank,
) -> ConnEnd
    requires name { blank.name ≡ L.name }
    requires parts { blank.parts ≡ L.parts }
    requires some { 0 < blank.parts }
    ensures { (begun : D) (old : Visitor Entry) → D.stands begun desk.old old → (new : Visitor Entry) × D.stands begun desk.new new ×
        Session (api_of D.may_fail base.now)
        (record { left = S.left source.old; ended = S.ended source.old; faults = S.faults source.old; written = K.written sink.old; write_faults = K.faults sink.old; visitor = old })
        (record { left = S.left source.new; ended = S.ended source.new; faults = S.faults source.new; written = K.written sink.new; write_faults = K.faults sink.new; visitor = new })
        result }
{
    let mut steps: Steps<L> = Steps::new(blank);
    match Routes::new(alloc) {
        Err(_) => give_up(sink),
        Ok(routes) => serve(
            rt,
            alloc,
            &Api { routes, base },
            desk,
            &mut steps,
            source,
            sink,
        ),
    }
}

/// Serves one connection by turns at a desk, up to the first request that asks to close. The base is the address of the
/// catalogue without a slash at its end. It waits where the desk's turns do, and answers outside of them.
pub fn serve_desk<R, D: Desk<R>, S: Source, K: Sink>(
    rt: &R,
    alloc: Global,
    desk: &mut D,
    base: &Text,
    source: &mut S,
    sink: &mut K,
) -> ConnEnd
    ensures session { (old : Visitor Entry) → D.stands desk.old desk.old old → (new : Visitor Entry) × D.stands desk.old desk.new new ×
        Session (api_of D.may_fail base.now)
        (record { left = S.left source.old; ended = S.ended source.old; faults = S.faults source.old; written = K.written sink.old; write_faults = K.faults sink.old; visitor = old })
        (record { left = S.left source.new; ended = S.ended source.new; faults = S.faults source.new; written = K.written sink.new; write_faults = K.faults sink.new; visitor = new })
        result }

    // The same, of a pass that has served other connections since it began.
    ensures chained { (begun : D) (old : Visitor Entry) → D.stands begun desk.old old → (new : Visitor Entry) × D.stands begun desk.new new ×
        Session (api_of D.may_fail base.now)
        (record { left = S.left source.old; ended = S.ended source.old; faults = S.faults source.old; written = K.written sink.old; write_faults = K.faults sink.old; visitor = old })
        (record { left = S.left source.new; ended = S.ended source.new; faults = S.faults source.new; written = K.written sink.new; write_faults = K.faults sink.new; visitor = new })
        result }
{
    serve_counting::<R, D, S, K, Brand>(rt, alloc, desk, base, source, sink, Blank::new(1))
}

/// Serves one connection by turns of a pass at the desk of a catalogue, up to the first request that asks to close. The base
/// is the address of the catalogue without a slash at its end. It waits for its turns, and answers outside of them. Each part
/// that a load of the connection changed, and that is there after it, is told as a notice before the load's reply is written.
/// The gate's point 1 is between each snapshot's turn and the answer by it.
pub fn serve_connection<'p, 'd, 'q, 'n, 'g, R: Wait, S: Source, K: Sink, G: Gate>(
    rt: &R,
    alloc: Global,
    pass: &'p mut DeskPass<'d>,
    notices: &'q mut NoticePass<'n>,
    base: &Text,
    source: &mut S,
    sink: &mut K,
    gate: &'g mut G,
) -> ConnEnd
    ensures session { Session (api base.now)
        (record { left = S.left source.old; ended = S.ended source.old; faults = S.faults source.old; written = K.written sink.old; write_faults = K.faults sink.old; visitor = pass.old })
        (record { left = S.left source.new; ended = S.ended source.new; faults = S.faults source.new; written = K.written sink.new; write_faults = K.faults sink.new; visitor = pass.new })
        result }
    ensures told { TellsOfLoads pass.old pass.new notices.old notices.new }
{
    let mut desk = NotifyingPass {
        pass,
        notices,
        gate,
    };
    serve_desk::<R, NotifyingPass<'p, 'd, 'q, 'n, 'g, G>, S, K>(
        rt, alloc, &mut desk, base, source, sink,
    )
}

/// Serves one connection over a catalogue of its own, which has taken no load, by the number 1. It waits for nobody.
pub fn pipe<S: Source, K: Sink>(alloc: Global, base: &Text, source: &mut S, sink: &mut K) -> ConnEnd
    ensures { (old : Visitor Entry) → IsAlone [] old → (new : Visitor Entry) × All (λ entry. entry.by ≡ 1) new.seen ×
        Session (api base.now)
        (record { left = S.left source.old; ended = S.ended source.old; faults = S.faults source.old; written = K.written sink.old; write_faults = K.faults sink.old; visitor = old })
        (record { left = S.left source.new; ended = S.ended source.new; faults = S.faults source.new; written = K.written sink.new; write_faults = K.faults sink.new; visitor = new })
        result }
{
    match LoneDesk::new(alloc) {
        Err(_) => give_up(sink),
        Ok(mut desk) => {
            serve_desk::<(), LoneDesk, S, K>(&(), alloc, &mut desk, base, source, sink)
        }
    }
}
