//! By what one thread takes turns at a desk, tells of parts and hears of them.
ghost use Rattle.std.specs.Prelude.{◌≡◌};
ghost use Rattle.sc_turn.specs.Passes.{IsOutside};
ghost use Rattle.sc_visit.specs.Visits.{visitor_of};
ghost use Rattle.sc_serve.specs.Notices.{TellsOfLoads};
ghost use Rattle.sc_serve.specs.Service.{api};
ghost use Rattle.sc_server.specs.Listening.{IsListened};
ghost use Rattle.sc_server.specs.Seats.{IsTightened, IsCardOf, TellsStop};

use crate::listening::serve_connections;
use sc_base::Text;
use sc_desk::{Card, Catalogue, DeskPass, Pass};
use sc_notice::{Notice, NoticeCard, NoticePass, tell};
use sc_outside::{Gate, Listen};
use sc_tighten::work;
use std::alloc::Global;
use std::sync::Wait;
use std::thread;

/// A pass of the desk and a pass of its notices.
#[derive(Drop)]
pub(crate) struct Seat<'d, 'n> {
    pub pass: DeskPass<'d>,
    pub notices: NoticePass<'n>,
}

/// Tells `Stop`. It is told again as long as the queue has no room for it.
fn tell_stop<'n, R: Wait>(rt: &R, notices: &mut NoticePass<'n>)
    ensures { TellsStop 1 notices.old notices.new }
{
    for _ in rt.forever() {
        match tell(rt, notices, Notice::Stop) {
            None => return,
            Some(back) => {
                drop(back);
                thread::yield_now();
            }
        }
    }
    unreachable!()
}

/// Tells `Stop` so often.
pub(crate) fn tell_stops<'n, R: Wait>(rt: &R, notices: &mut NoticePass<'n>, count: usize)
    ensures { TellsStop count notices.old notices.new }
{
    for told in 0..count {
        tell_stop(rt, notices);
    }
}

impl<'d, 'n> Seat<'d, 'n> {
    /// The seat of these passes.
    pub fn new(pass: Pass<'d, Catalogue>, notices: NoticePass<'n>) -> Seat<'d, 'n>
        requires { IsOutside pass }
        ensures { result ≡ record { pass = visitor_of pass.entry; notices = notices.entry } }
    {
        Seat {
            pass: DeskPass::of(pass),
            notices,
        }
    }

    /// Serves the connections of the listener, at most so many, and answers whether the listener failed.
    pub fn serve<R: Wait, L: Listen>(
        &mut self,
        rt: &R,
        alloc: Global,
        base: &Text,
        net: &mut L,
        most: u64,
    ) -> bool
        ensures told { TellsOfLoads self.old.pass self.new.pass self.old.notices self.new.notices }
        ensures listened { IsListened L.In.left L.In.ended L.In.faults L.Out.written L.Out.faults (api base.now) L.left L.handed_back L.faults most result net.old net.new self.old.pass self.new.pass }
    {
        serve_connections(
            rt,
            alloc,
            base,
            &mut self.pass,
            &mut self.notices,
            net,
            most,
        )
    }

    /// Tightens parts that are heard of, in so many turns, or fewer where `Stop` is heard.
    pub fn tighten<R: Wait, G: Gate>(&mut self, rt: &R, alloc: Global, turns: u64, gate: &mut G)
        ensures { IsTightened turns self.old self.new }
    {
        let _ = work(rt, alloc, &mut self.pass, &mut self.notices, turns, gate);
    }

    /// The cards of its passes.
    pub fn into_cards(self) -> (Card<Catalogue>, NoticeCard)
        ensures card { IsCardOf self.entry result.0 }
        ensures notices { result.1 ≡ self.entry.notices }
    {
        let Seat { pass, notices } = self;
        (pass.into_pass().unbind(), notices.unbind())
    }
}
