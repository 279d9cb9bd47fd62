//! Who takes turns, in a thread of its own.
ghost use Rattle.std.specs.Prelude.{◌≡◌, ◌<◌, ◌^◌, ◌++◌, ◌∷◌, [], replicate, MatchBool};
ghost use Rattle.sc_turn.specs.Passes.{pass_desk, pass_number, pass_seen, IsOutside};
ghost use Rattle.bench_turn.specs.Numbers.{own};

use crate::numbers::Numbers;
use sc_turn::{Card, Pass};
use std::sync::Wait;

/// One turn, which adds a number where there is memory, and answers whether it did.
#[tactic(auto, using(crate::proofs::Own::own_lemmas))]
fn add<'d, R: Wait>(rt: &R, pass: &mut Pass<'d, Numbers>, number: u64) -> bool
    requires { IsOutside pass.old }
    ensures kept { (pass_desk pass.new ≡ pass_desk pass.old) × (pass_number pass.new ≡ pass_number pass.old) × IsOutside pass.new }
    ensures own { MatchBool result (own (pass_number pass.old) (pass_seen pass.new) ≡ own (pass_number pass.old) (pass_seen pass.old) ++ (pass_number pass.old, number) ∷ []) (own (pass_number pass.old) (pass_seen pass.new) ≡ own (pass_number pass.old) (pass_seen pass.old)) }
{
    let by = pass.number();
    let mut turn = pass.enter(rt);
    match turn.value.add(by, number) {
        Ok(()) => {
            pass.leave(turn);
            true
        }
        Err(_) => {
            pass.leave(turn);
            false
        }
    }
}

/// A pass, and how often it has added 1.
#[derive(Drop)]
pub struct Worker<'d> {
    pass: Pass<'d, Numbers>,
    done: u64,
    ghost outside: { IsOutside pass },
    ghost own: { own (pass_number pass) (pass_seen pass) ≡ replicate done (pass_number pass, 1) },
}

impl<'d> Worker<'d> {
    ghost use Rattle.bench_turn.specs.Workers.{worker_desk, worker_number, IsCardOf};

    pub fn new(pass: Pass<'d, Numbers>) -> Worker<'d>
        requires { IsOutside pass × (own (pass_number pass) (pass_seen pass) ≡ []) }
        ensures { (worker_desk result ≡ pass_desk pass.entry) × (worker_number result ≡ pass_number pass.entry) }
    {
        Worker { pass, done: 0 }
    }

    pub fn into_card(self) -> Card<Numbers>
        ensures { IsCardOf self.entry result }
    {
        let Worker { pass, done: _ } = self;
        pass.unbind()
    }

    fn step<R: Wait>(&mut self, rt: &R)
        requires { self.old.done < 2 ^ 62 }
        ensures { (worker_desk self.new ≡ worker_desk self.old) × (worker_number self.new ≡ worker_number self.old) }
    {
        if add(rt, &mut self.pass, 1) {
            self.done += 1;
        }
    }

    /// Takes so many turns.
    pub fn work<R: Wait>(&mut self, rt: &R, turns: u64)
        ensures { (worker_desk self.new ≡ worker_desk self.old) × (worker_number self.new ≡ worker_number self.old) }
    {
        for _ in 0..turns {
            if self.done < 1 << 62 {
                self.step(rt);
            }
        }
    }
}
