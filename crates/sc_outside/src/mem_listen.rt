ghost use Rattle.std.specs.Prelude.{◌≡◌, ◌+◌, ◌-◌, ◌^◌, ◌≤◌, ◌++◌, ◌∷◌, ◌↔◌, length, [], Some, IfOk, IsErr, Contains, min, vec_len, vec_capacity};
ghost use Rattle.std.specs.VecDeque.{deque_len};

use crate::{Failed, Listen, MemSink, MemSource, Seq};
use std::alloc::{AllocError, Global};
use std::collections::VecDeque;

/// A list of connections as a listener. The calls of `accept` numbered in `failing`, from 0, fail.
#[derive(Drop)]
pub struct MemListen {
    left: VecDeque<(MemSource, MemSink)>,
    handed_out: u64,
    handed_back: Vec<(MemSource, MemSink)>,
    failing: Seq<u64>,
    calls: u64,
    faults: u64,
    ghost room: { handed_out + deque_len left ≤ vec_capacity handed_back },
    ghost fewer_back: { length handed_back.items ≤ handed_out },
}

impl MemListen {
    ghost use Rattle.sc_outside.specs.MemListen.{connections_left, connections_back, connections_out, listen_failing, listen_calls, listen_faults};

    /// A listener of these connections, in their order. It makes the room for those that are handed back.
    pub fn new(
        alloc: Global,
        conns: Seq<(MemSource, MemSink)>,
        failing: Seq<u64>,
    ) -> Result<MemListen, AllocError>
        ensures left { IfOk result (λ l. connections_left l ≡ conns) }
        ensures back { IfOk result (λ l. connections_back l ≡ []) }
        ensures out { IfOk result (λ l. connections_out l ≡ 0) }
        ensures failing { IfOk result (λ l. listen_failing l ≡ failing) }
        ensures calls { IfOk result (λ l. listen_calls l ≡ 0) }
        ensures faults { IfOk result (λ l. listen_faults l ≡ 0) }
    {
        Ok(MemListen {
            handed_back: Vec::with_capacity(alloc, conns.len())?,
            left: VecDeque::from_vec(conns.into_vec()),
            handed_out: 0,
            failing,
            calls: 0,
            faults: 0,
        })
    }

    /// The connections that were handed back, in their order. Takes no memory.
    pub fn into_handed_back(self) -> Seq<(MemSource, MemSink)>
        ensures { result ≡ connections_back self }
    {
        Seq::of(self.handed_back)
    }
}

impl Listen for MemListen {
    ghost use Rattle.sc_outside.specs.Causes.{HasCause, counted};
    ghost use Rattle.sc_outside.specs.Connections.{Accepts, Stays, TakesBack, IsOwed};
    ghost use Rattle.sc_outside.specs.MemListen.{connections_left, connections_back, connections_out, listen_failing, listen_calls, listen_faults};

    type In = MemSource;

    type Out = MemSink;

    ghost left = { λ l. Some l.left.items };

    ghost handed_out = { λ l. Some l.handed_out };

    ghost handed_back = { λ l. Some l.handed_back.items };

    ghost faults = { λ l. l.faults };

    fn accept(&mut self) -> Result<Option<(MemSource, MemSink)>, Failed>
        ensures connections { Accepts (Some (connections_left self.old)) (Some (connections_left self.new)) (Some (connections_out self.old)) (Some (connections_out self.new)) result }
        ensures back { Stays (Some (connections_back self.old)) (Some (connections_back self.new)) }
        ensures cause { HasCause (listen_faults self.old) (listen_faults self.new) result }

        // The calls that are to fail do, and no other, and each is counted once.
        ensures fails { IsErr result ↔ Contains (listen_failing self.old) (listen_calls self.old) }
        ensures faults { listen_faults self.new ≡ counted result (listen_faults self.old) }
        ensures failing { listen_failing self.new ≡ listen_failing self.old }
        ensures calls { listen_calls self.new ≡ min (listen_calls self.old + 1) (2 ^ 64 - 1) }
    {
        let call = self.calls;
        self.calls = call.saturating_add(1);
        if self.failing.as_slice().contains(&call) {
            self.faults = self.faults.saturating_add(1);
            return Err(Failed);
        }
        let Some(next) = self.left.pop_front() else {
            return Ok(None);
        };
        self.handed_out += 1;
        Ok(Some(next))
    }

    fn done(&mut self, input: MemSource, output: MemSink)
        requires { IsOwed (Some (connections_out self.old)) (Some (connections_back self.old)) }
        ensures left { Stays (Some (connections_left self.old)) (Some (connections_left self.new)) }
        ensures out { Stays (Some (connections_out self.old)) (Some (connections_out self.new)) }
        ensures back { TakesBack (Some (connections_back self.old)) (Some (connections_back self.new)) (input, output) }
        ensures faults { listen_faults self.new ≡ listen_faults self.old }
        ensures failing { listen_failing self.new ≡ listen_failing self.old }
        ensures calls { listen_calls self.new ≡ listen_calls self.old }
    {
        match self.handed_back.push((input, output)) {
            Ok(()) => {}
            Err(_) => unreachable!(),
        }
    }

    ghost fewer_back = { λ l. l.fewer_back };
}
