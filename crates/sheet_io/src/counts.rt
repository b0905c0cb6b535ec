// How often an object in memory was called, and how often it failed.
ghost use Rattle.std.specs.Prelude.{◌≡◌, ◌≤◌};
ghost use Rattle.sheet_io.specs.Counts.{next_call, next_fault};

/// A count of calls and a count of faults. Each stands still at its last value.
#[derive(Debug, Drop)]
pub(crate) struct Counts {
    pub(crate) calls: u32,
    pub(crate) faults: u64,
}

impl Counts {
    /// No call yet.
    pub(crate) fn new() -> Self
        ensures { result ≡ record { calls = 0; faults = 0 } }
    {
        Counts {
            calls: 0,
            faults: 0,
        }
    }

    /// Counts a call, and gives its number.
    pub(crate) fn begin(&mut self) -> u32
        ensures number { result ≡ next_call self.old.calls }
        ensures after { self.new ≡ record self.old { calls = next_call self.old.calls } }
    {
        self.calls = self.calls.saturating_add(1);
        self.calls
    }

    /// Counts a fault.
    pub(crate) fn raise(&mut self)
        ensures after { self.new ≡ record self.old { faults = next_fault self.old.faults } }
        ensures counted { self.old.faults ≤ self.new.faults }
    {
        self.faults = self.faults.saturating_add(1);
    }
}
