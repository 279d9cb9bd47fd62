//! The connections of one listener, served one after the other.
ghost use Rattle.std.specs.Prelude.{◌≡◌, ◌≤◌, ℕ, length};
ghost use Rattle.sc_catalog.specs.declared.entry.Entry.{Entry};
ghost use Rattle.sc_visit.specs.Visits.{Visitor};
ghost use Rattle.sc_serve.specs.Notices.{TellsOfLoads};
ghost use Rattle.sc_serve.specs.Service.{api, api_of};
ghost use Rattle.sc_server.specs.Listening.{IsListened, ListensOnce};

use sc_base::Text;
use sc_desk::DeskPass;
use sc_notice::NoticePass;
use sc_outside::{Failed, Listen, OpenGate};
use sc_serve::{Desk, NotifyingPass, serve_desk};
use std::alloc::Global;
use std::sync::Wait;

/// What came of asking a listener once.
#[derive(Clone, Copy, Debug, PartialEq, Eq)]
pub(crate) enum Asked {
    /// A connection was served, and handed back.
    Served,
    /// There is no connection left.
    NoneLeft,
    /// The listener failed.
    Failed,
}

/// Serves the next connection of the listener by turns at a desk, and hands it back after its end.
fn serve_next<R, D: Desk<R>, L: Listen>(
    rt: &R,
    alloc: Global,
    base: &Text,
    desk: &mut D,
    net: &mut L,
) -> Asked
    ensures { (begun : D) (old : Visitor Entry) → D.stands begun desk.old old → (new : Visitor Entry) × D.stands begun desk.new new ×
        ListensOnce L.In.left L.In.ended L.In.faults L.Out.written L.Out.faults (api_of D.may_fail base.now) L.left L.handed_back L.faults result net.old net.new old new }
{
    match net.accept() {
        Ok(Some((mut source, mut sink))) => {
            let _end = serve_desk(rt, alloc, desk, base, &mut source, &mut sink);
            net.done(source, sink);
            Asked::Served
        }
        Ok(None) => Asked::NoneLeft,
        Err(Failed) => Asked::Failed,
    }
}

/// Serves the connections of the listener one after the other by turns at a desk, at most so many, and answers whether the
/// listener failed. It ends where the listener has none left or fails, or where that many were served; the end of a connection
/// ends nothing else.
pub(crate) fn serve_listener<R, D: Desk<R>, L: Listen>(
    rt: &R,
    alloc: Global,
    base: &Text,
    desk: &mut D,
    net: &mut L,
    most: u64,
) -> bool
    ensures { (old : Visitor Entry) → D.stands desk.old desk.old old → (new : Visitor Entry) × D.stands desk.old desk.new new ×
        IsListened L.In.left L.In.ended L.In.faults L.Out.written L.Out.faults (api_of D.may_fail base.now) L.left L.handed_back L.faults most result net.old net.new old new }
{
    for served in 0..most {
        match serve_next(rt, alloc, base, desk, net) {
            Asked::Served => {}
            Asked::NoneLeft => return false,
            Asked::Failed => return true,
        }
    }
    false
}

/// Serves the connections of the listener by turns of a pass, and tells of the parts that their loads change.
pub(crate) fn serve_connections<'p, 'd, 'q, 'n, R: Wait, L: Listen>(
    rt: &R,
    alloc: Global,
    base: &Text,
    pass: &'p mut DeskPass<'d>,
    notices: &'q mut NoticePass<'n>,
    net: &mut L,
    most: u64,
) -> bool
    ensures told { TellsOfLoads pass.old pass.new notices.old notices.new }
    ensures listened { IsListened L.In.left L.In.ended L.In.faults L.Out.written L.Out.faults (api base.now) L.left L.handed_back L.faults most result net.old net.new pass.old pass.new }
{
    let mut gate = OpenGate;
    let mut desk = NotifyingPass {
        pass,
        notices,
        gate: &mut gate,
    };
    serve_listener(rt, alloc, base, &mut desk, net, most)
}
