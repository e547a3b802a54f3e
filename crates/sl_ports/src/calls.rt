//! The calls of one kind on a memory end, and which of them are to fail.

ghost use Rattle.std.specs.Prelude.{◌≡◌};
ghost use Rattle.sl_base.specs.Counting.{raised};
ghost use Rattle.sl_ports.specs.Calls.{untried, is_to_fail, counted};

use std::marker::Model;

/// Counts calls from 1, and knows the numbers of those that are to fail.
#[derive(Drop)]
pub struct Calls {
    failing: Vec<u64>,
    made: u64,
    faults: u64,
}

impl Model for Calls {
    ghost use Rattle.sl_ports.specs.Calls.{Tally};

    ghost Value = { Tally };

    ghost view = { λ c. record { failing = c.failing.items; made = c.made; faults = c.faults } };
}

impl Calls {
    /// Those of the listed numbers are to fail. None was made yet.
    pub fn new(failing: Vec<u64>) -> Calls
        ensures { result ≡ untried failing.items }
    {
        Calls {
            failing,
            made: 0,
            faults: 0,
        }
    }

    /// Counts one more call, and says whether it is to fail.
    pub fn count(&mut self) -> bool
        ensures value { result ≡ is_to_fail self.old }
        ensures after { self.new ≡ counted self.old result }
    {
        let number = self.made.saturating_add(1);
        let failed = self.failing.contains(&number);
        self.made = number;
        if failed {
            self.faults = self.faults.saturating_add(1);
        }
        failed
    }

    /// Raises the count of faults, for a call that was counted.
    pub fn fail(&mut self)
        ensures { self.new ≡ record self.old { faults = raised self.old.faults } }
    {
        self.faults = self.faults.saturating_add(1);
    }
}
