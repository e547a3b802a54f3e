//! The calls of one kind on an end in memory, and what they are to come to.

ghost use Rattle.std.specs.Prelude.{◌≡◌};
ghost use Rattle.live_ports.specs.Calls.{untried, due, counted, failed_too};

use std::marker::Model;

/// What a call is to come to.
#[derive(Clone, Copy, Debug, PartialEq, Eq)]
pub enum Due {
    Failure,
    /// Nothing for now.
    Nothing,
    Success,
}

/// Counts calls from 1, and knows the numbers of those that are to fail or to give nothing.
#[derive(Drop)]
pub struct Calls {
    failing: Vec<u64>,
    idling: Vec<u64>,
    made: u64,
    faults: u64,
    idles: u64,
}

impl Model for Calls {
    ghost use Rattle.live_ports.specs.Calls.{Tally};

    ghost Value = { Tally };

    ghost view = { λ c. record {
      failing = c.failing.items;
      idling = c.idling.items;
      made = c.made;
      faults = c.faults;
      idles = c.idles;
    } };
}

impl Calls {
    /// Those of the listed numbers are to fail or to give nothing. None was made yet.
    pub fn new(failing: Vec<u64>, idling: Vec<u64>) -> Calls
        ensures { result ≡ untried failing.items idling.items }
    {
        Calls {
            failing,
            idling,
            made: 0,
            faults: 0,
            idles: 0,
        }
    }

    /// Counts one more call, and says what it is to come to.
    pub fn count(&mut self) -> Due
        ensures value { result ≡ due self.old }
        ensures after { self.new ≡ counted self.old result }
    {
        let number = self.made.saturating_add(1);
        self.made = number;
        if self.failing.contains(&number) {
            self.faults = self.faults.saturating_add(1);
            return Due::Failure;
        }
        if self.idling.contains(&number) {
            self.idles = self.idles.saturating_add(1);
            return Due::Nothing;
        }
        Due::Success
    }

    /// Raises the count of faults, for a call that was counted.
    pub fn fail(&mut self)
        ensures { self.new ≡ failed_too self.old }
    {
        self.faults = self.faults.saturating_add(1);
    }
}
