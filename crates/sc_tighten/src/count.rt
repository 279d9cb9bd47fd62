ghost use Rattle.std.specs.Prelude.{◌≡◌, ◌+◌, ◌<◌, ◌^◌};
ghost use Rattle.sc_tighten.specs.Work.{no_turn, plus, total};

use crate::outcome::Outcome;
use sc_desk::Installed;

/// How many turns of the work ended in which way.
#[derive(Clone, Copy, Debug, PartialEq, Eq)]
pub struct WorkCount {
    /// No notice was heard.
    pub empty: u64,
    /// The hull became the part's bounds.
    pub exact: u64,
    /// The hull was joined with what came since the look.
    pub joined: u64,
    /// Too much came since the look, and the bounds stayed.
    pub too_old: u64,
    /// The part wasn't there at the look or at the install.
    pub gone: u64,
    /// There was no memory for the look or for the install.
    pub no_memory: u64,
}

/// How the work ended.
#[derive(Clone, Copy, Debug, PartialEq, Eq)]
pub enum WorkDone {
    /// All turns were taken.
    Done(WorkCount),
    /// `Stop` was heard.
    Stopped(WorkCount),
}

impl WorkCount {
    /// The count of no turn.
    pub(crate) fn new() -> WorkCount
        ensures { result ≡ no_turn }
    {
        WorkCount {
            empty: 0,
            exact: 0,
            joined: 0,
            too_old: 0,
            gone: 0,
            no_memory: 0,
        }
    }

    /// Counts a turn more.
    pub(crate) fn add(&mut self, outcome: Outcome)
        requires { total self.old + 1 < 2 ^ 64 }
        ensures { self.new ≡ plus outcome self.old }
    {
        match outcome {
            Outcome::Idle => self.empty += 1,
            Outcome::Told(Installed::Exact) => self.exact += 1,
            Outcome::Told(Installed::Joined) => self.joined += 1,
            Outcome::Told(Installed::TooOld { .. }) => self.too_old += 1,
            Outcome::Told(Installed::Gone) => self.gone += 1,
            Outcome::NoMemory => self.no_memory += 1,
        }
    }
}
