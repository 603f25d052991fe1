//! What a source of bytes promises.
ghost use Rattle.std.specs.Prelude.{◌≡◌, ℕ, ◌<◌, ◌≤◌, List, Option, length, take, IfOk, OnErr};
ghost use Rattle.std.specs.Io.KnownBytes.{prepend_known, IsAtEnd};
ghost use Rattle.np_io.specs.Faults.{Rose};

/// A source or a sink did not do what was asked of it, and counted a fault.
#[derive(Clone, Copy, Debug, PartialEq, Eq)]
pub struct Failed;

/// Gives bytes in order until its end, and counts its faults.
pub trait Source {
    // The bytes that are left, where the source tells them. A stream tells none.
    ghost left: { Self → Option (List ℕ) };

    // How many faults there were.
    ghost faults: { Self → ℕ };

    /// Moves the first bytes of what is left to the front of `into`, and answers how many they are.
    ///
    /// `Ok(0)` at a buffer with room is the end. The rest of `into` may hold anything. `Failed`
    /// comes only where the count of faults rose, and then nothing was moved.
    fn take(&mut self, into: &mut [u8]) -> Result<usize, Failed>
        ensures fits { IfOk result (λ count. count ≤ length into.new) }
        ensures moved { IfOk result
            (λ count. left self.old ≡ prepend_known (take count into.new) (left self.new)) }
        ensures end { result ≡ Ok 0 → 0 < length into.new → IsAtEnd (left self.new) }

        ensures fault_rose { OnErr result (Rose (faults self.old) (faults self.new)) }
        ensures nothing_moved { OnErr result (left self.new ≡ left self.old) }
        ensures never_falls { faults self.old ≤ faults self.new };
}
