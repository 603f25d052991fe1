//! Counts the calls of a form in memory, and fails those that were chosen.
ghost use Rattle.std.specs.Prelude.{◌≡◌, ◌≤◌, ◌↔◌, [], IsErr, OnOk, OnErr};
ghost use Rattle.np_io.specs.Faults.{next_count};
ghost use Rattle.np_io.specs.Calls.{NextFails, with_call, with_fault};

use crate::source::Failed;
use std::marker::Model;

// Which calls fail, and how many calls and faults there were. Both counts stop at their last value.
#[derive(Drop)]
pub(crate) struct Calls {
    fails: Vec<u64>,
    made: u64,
    faults: u64,
}

impl Model for Calls {
    ghost use Rattle.np_io.specs.Calls.{CallState};

    ghost Value = { CallState };

    ghost view = { λ calls. record {
      fails = calls.fails.items;
      made = calls.made;
      faults = calls.faults;
    } };
}

impl Calls {
    pub(crate) fn new(fails: Vec<u64>) -> Calls
        ensures { result ≡ record { fails = fails.items; made = 0; faults = 0 } }
    {
        Calls {
            fails,
            made: 0,
            faults: 0,
        }
    }

    // Makes the next call, which fails where its number is listed.
    pub(crate) fn make(&mut self) -> Result<(), Failed>
        ensures fails { IsErr result ↔ NextFails self.old }
        ensures ok { OnOk result (self.new ≡ with_call self.old) }
        ensures err { OnErr result (self.new ≡ with_fault self.old) }
        ensures never_falls { self.old.faults ≤ self.new.faults }
    {
        self.made = self.made.saturating_add(1);
        if self.fails.contains(&self.made) {
            self.count_fault();
            return Err(Failed);
        }
        Ok(())
    }

    pub(crate) fn count_fault(&mut self)
        ensures counted { self.new ≡ record self.old { faults = next_count self.old.faults } }
        ensures never_falls { self.old.faults ≤ self.new.faults }
    {
        self.faults = self.faults.saturating_add(1);
    }
}
