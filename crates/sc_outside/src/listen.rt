ghost use Rattle.std.specs.Prelude.{◌≡◌, ℕ, List, ◌≤◌};
ghost use Rattle.std.specs.declared.option.Option.{Option};
ghost use Rattle.sc_outside.specs.Causes.{HasCause};
ghost use Rattle.sc_outside.specs.Connections.{Accepts, Stays, TakesBack, IsOwed, AtMostOut};

use crate::{Failed, Sink, Source};

/// Where connections come from.
pub trait Listen {
    type In: Source + Drop;

    type Out: Sink + Drop;

    /// The connections that are left, where the listener tells them.
    ghost left: { Self → Option (List (Self.In × Self.Out)) };

    /// How many were handed out, where it tells.
    ghost handed_out: { Self → Option ℕ };

    /// The connections that were handed back, in order, where it tells them.
    ghost handed_back: { Self → Option (List (Self.In × Self.Out)) };

    /// How often it has failed.
    ghost faults: { Self → ℕ };

    /// Hands out the first of the connections left, or answers none where there are no more.
    /// `Failed` comes only where the count of faults rose. None and `Failed` leave the lists and the number as they were.
    fn accept(&mut self) -> Result<Option<(Self::In, Self::Out)>, Failed>
        ensures connections { Accepts (left self.old) (left self.new) (handed_out self.old) (handed_out self.new) result }
        ensures back { Stays (handed_back self.old) (handed_back self.new) }
        ensures cause { HasCause (faults self.old) (faults self.new) result };

    /// Takes a connection back after its end, behind those that were handed back before.
    fn done(&mut self, input: Self::In, output: Self::Out)
        requires { IsOwed (handed_out self.old) (handed_back self.old) }
        ensures left { Stays (left self.old) (left self.new) }
        ensures out { Stays (handed_out self.old) (handed_out self.new) }
        ensures back { TakesBack (handed_back self.old) (handed_back self.new) (input, output) }
        ensures faults { faults self.old ≤ faults self.new };

    /// Never more are handed back than were handed out, where both are told.
    ghost fewer_back: { (l : Self) → AtMostOut (handed_out l) (handed_back l) };
}
