ghost use Rattle.std.specs.Prelude.{◌≡◌, ◌≤◌, ◌+◌, ◌-◌, ◌^◌, ◌↔◌, min, Contains, IsErr};
ghost use Rattle.sc_outside.specs.Causes.{HasCause, Rose, counted};

use sc_outside::Failed;

/// Which calls are to fail, by their numbers from 0, and how many were made and how many failed.
#[derive(Drop)]
pub(crate) struct Failing {
    pub to_fail: Vec<u64>,
    pub calls: u64,
    pub faults: u64,
}

impl Failing {
    /// Begins the next call, which fails where it is to.
    pub(crate) fn next(&mut self) -> Result<(), Failed>
        ensures fails { IsErr result ↔ Contains self.old.to_fail.items self.old.calls }
        ensures faults { self.new.faults ≡ counted result self.old.faults }
        ensures cause { HasCause self.old.faults self.new.faults result }
        ensures calls { self.new.calls ≡ min (self.old.calls + 1) (2 ^ 64 - 1) }
        ensures to_fail { self.new.to_fail.items ≡ self.old.to_fail.items }
    {
        let call = self.calls;
        self.calls = call.saturating_add(1);
        if self.to_fail.as_slice().contains(&call) {
            return Err(self.fault());
        }
        Ok(())
    }

    /// Counts a fault.
    pub(crate) fn fault(&mut self) -> Failed
        ensures rose { Rose self.old.faults self.new.faults }
        ensures faults { self.new.faults ≡ min (self.old.faults + 1) (2 ^ 64 - 1) }
        ensures later { self.old.faults ≤ self.new.faults }
        ensures calls { self.new.calls ≡ self.old.calls }
        ensures to_fail { self.new.to_fail.items ≡ self.old.to_fail.items }
    {
        self.faults = self.faults.saturating_add(1);
        Failed
    }
}
