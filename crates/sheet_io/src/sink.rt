// A place that output is written to.
ghost use Rattle.std.specs.Prelude.{◌≤◌, List, ℕ, OnErr};
ghost use Rattle.std.specs.declared.option.Option.{Option};
ghost use Rattle.sheet_io.specs.Faults.{Rose};
ghost use Rattle.sheet_io.specs.Sink.{Puts};

use crate::Failed;

/// Takes bytes, piece by piece.
pub trait Sink {
    /// All the bytes that were taken. None where the sink doesn't tell; one that tells goes on telling.
    ghost written: { Self → Option (List ℕ) };

    /// The number of faults so far.
    ghost faults: { Self → ℕ };

    /// Appends the bytes.
    ///
    /// `Failed` comes only where the faults rose in this call; then a prefix of the bytes was appended.
    fn put(&mut self, bytes: &[u8]) -> Result<(), Failed>
        ensures taken { Puts (written self.old) (written self.new) bytes.now result }
        ensures counted { faults self.old ≤ faults self.new }
        ensures cause { OnErr result (Rose (faults self.old) (faults self.new)) };
}
