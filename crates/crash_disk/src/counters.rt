//! The counts of a folder in memory, and the calls that are to fail.

ghost use Rattle.std.specs.Prelude.{◌≡◌, ◌≤◌};
ghost use Rattle.view_ports.specs.Causes.{one_more};
ghost use Rattle.view_ports.specs.Faults.{next_count};
ghost use Rattle.view_ports.specs.Memory.{is_listed};

use view_ports::PortFault;

/// Each count stands still at `u64::MAX`.
#[derive(Drop)]
pub struct Counters {
    pub fail: Vec<u64>,
    pub calls: u64,
    pub faults: u64,
    pub reads: u64,
}

impl Counters {
    /// Counts a call, and answers whether it is one of those that are to fail.
    pub fn begin(&mut self) -> bool
        ensures listed { result ≡ is_listed self.old.fail.items self.old.calls }
        ensures counted { self.new ≡ record self.old { calls = next_count self.old.calls } }
    {
        let fails = self.fail.contains(&self.calls);
        self.calls = self.calls.saturating_add(1);
        fails
    }

    /// Counts a fault.
    pub fn fault(&mut self) -> PortFault
        ensures counted { self.new ≡ record self.old { faults = next_count self.old.faults } }
        ensures later { self.old.faults ≤ self.new.faults }
    {
        self.faults = self.faults.saturating_add(1);
        PortFault
    }

    /// Counts a read.
    pub fn read(&mut self)
        ensures { self.new ≡ record self.old { reads = one_more self.old.reads } }
    {
        self.reads = self.reads.saturating_add(1);
    }
}
