//! When the objects in memory fail, for tests of everything above them.
ghost use Rattle.std.specs.Prelude.{◌≡◌, ◌≤◌};
ghost use Rattle.op_base.specs.Outside.{Rose};
ghost use Rattle.op_base.specs.FaultPlan.{is_listed, next_number};

/// The numbers of the calls that fail, how many calls there were, and how many faults. Both counts stop at their
/// greatest value, 2^64 - 1.
#[derive(Drop)]
pub struct FaultPlan {
    pub fails: Vec<u64>,
    pub calls: u64,
    pub faults: u64,
}

impl FaultPlan {
    /// The calls in this list fail. The first call has the number 0.
    pub fn new(fails: Vec<u64>) -> FaultPlan
        ensures fails { result.fails ≡ fails }
        ensures calls { result.calls ≡ 0 }
        ensures faults { result.faults ≡ 0 }
    {
        FaultPlan {
            fails,
            calls: 0,
            faults: 0,
        }
    }

    /// Counts a call, and answers whether it is one that fails.
    pub fn begins_failing_call(&mut self) -> bool
        ensures value { result ≡ is_listed self.old }
        ensures after { self.new ≡ record self.old { calls = next_number self.old.calls } }
    {
        let fails = self.fails.contains(&self.calls);
        self.calls = self.calls.saturating_add(1);
        fails
    }

    /// Counts a fault.
    pub fn count_fault(&mut self)
        ensures after { self.new ≡ record self.old { faults = next_number self.old.faults } }
        ensures counts { self.old.faults ≤ self.new.faults }
        ensures rose { Rose self.old.faults self.new.faults }
    {
        self.faults = self.faults.saturating_add(1);
    }
}
