//! What a sink for bytes promises.
ghost use Rattle.std.specs.Prelude.{◌≡◌, ℕ, ◌+◌, ◌<◌, ◌≤◌, List, Option, length, take, IsOk, IfOk, OnErr};
ghost use Rattle.std.specs.Io.KnownBytes.{append_known};
ghost use Rattle.np_io.specs.Faults.{Rose};

use crate::source::Failed;

/// Takes bytes in order, and counts its faults.
pub trait Sink {
    // The bytes that were given so far, where the sink tells them. A stream tells none.
    ghost written: { Self → Option (List ℕ) };

    // How many faults there were.
    ghost faults: { Self → ℕ };

    // So many more bytes the sink takes without a fault.
    ghost sure: { Self → ℕ };

    /// Appends the first bytes of `bytes`, and answers how many they are: at least one, if there
    /// are any.
    ///
    /// `Failed` comes only where the count of faults rose, and then nothing was appended. It does
    /// not come while the sink is sure of at least one byte.
    fn give(&mut self, bytes: &[u8]) -> Result<usize, Failed>
        ensures fits { IfOk result (λ count. count ≤ length bytes.now) }
        ensures some_taken { 0 < length bytes.now → IfOk result (λ count. 1 ≤ count) }
        ensures appended { IfOk result
            (λ count. written self.new ≡ append_known (written self.old) (take count bytes.now)) }

        ensures sure_of_it { 1 ≤ sure self.old → IsOk result }
        ensures sure_of_the_rest { IfOk result (λ count. sure self.old ≤ sure self.new + count) }

        ensures fault_rose { OnErr result (Rose (faults self.old) (faults self.new)) }
        ensures nothing_appended { OnErr result (written self.new ≡ written self.old) }
        ensures never_falls { faults self.old ≤ faults self.new };
}
