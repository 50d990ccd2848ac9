//! Which calls fail, by a list of their numbers.
ghost use Rattle.std.specs.Prelude.{◌≡◌, ◌↔◌, ◌+◌, ◌-◌, ◌^◌, ◌≤◌, true, false, min, Contains, IsTrue};

/// Calls counted from 0, of which those in a list fail.
#[derive(Drop)]
pub(crate) struct FaultPlan {
    pub(crate) fails: Vec<u64>,
    pub(crate) calls: u64,
    pub(crate) faults: u64,
}

impl FaultPlan {
    /// No call was made.
    pub(crate) fn new(fails: Vec<u64>) -> FaultPlan
        ensures fails { result.fails ≡ fails }
        ensures calls { result.calls ≡ 0 }
        ensures faults { result.faults ≡ 0 }
    {
        FaultPlan {
            fails,
            calls: 0,
            faults: 0,
        }
    }

    /// Counts a call, and says whether it fails. Both counts stand still at their type's end.
    pub(crate) fn call_fails(&mut self) -> bool
        ensures answer { IsTrue result ↔ Contains self.old.fails.items self.old.calls }
        ensures fails { self.new.fails ≡ self.old.fails }
        ensures calls { self.new.calls ≡ min (self.old.calls + 1) (2 ^ 64 - 1) }
        ensures fault { result ≡ true → self.new.faults ≡ min (self.old.faults + 1) (2 ^ 64 - 1) }
        ensures none { result ≡ false → self.new.faults ≡ self.old.faults }
        ensures later { self.old.faults ≤ self.new.faults }
    {
        let call = self.calls;
        self.calls = call.saturating_add(1);
        let fails = self.fails.contains(&call);
        if fails {
            self.faults = self.faults.saturating_add(1);
        }
        fails
    }
}
