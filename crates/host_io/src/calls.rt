// The calls of a memory form.
ghost use Rattle.std.specs.Prelude.{◌≡◌, ◌≤◌, false};
ghost use Rattle.host_io.specs.Memory.{fresh, is_listed, called, counted_fault};

use sqlite_items::Items;

/// Which calls of a memory form fail, how many it had, and how many failed. Both counts stay at their type's end.
#[derive(Debug, Drop)]
pub struct Calls {
    /// The numbers of the calls that fail, counted from 1.
    pub fails: Items<u64>,
    pub made: u64,
    pub faults: u64,
}

impl Calls {
    pub fn new(fails: Items<u64>) -> Calls
        ensures { result ≡ fresh fails }
    {
        Calls {
            fails,
            made: 0,
            faults: 0,
        }
    }

    // Counts a call, and says whether it is one that fails.
    pub(crate) fn begin(&mut self) -> bool
        ensures listed { result ≡ is_listed self.old }
        ensures counted { self.new ≡ called self.old false }
    {
        self.made = self.made.saturating_add(1);
        self.fails.as_slice().contains(&self.made)
    }

    // Counts a fault.
    pub(crate) fn fail(&mut self)
        ensures counted { self.new ≡ counted_fault self.old }
        ensures later { self.old.faults ≤ self.new.faults }
    {
        self.faults = self.faults.saturating_add(1);
    }
}
