//! Where an adapter is reached.

/// A serial line to an adapter, and a clock.
pub trait Port {
    ghost use Rattle.std.specs.Prelude.{◌≡◌, ◌≤◌, ℕ, List, [], true, false, length, take, IfSome, IfNone};

    /// A read of bytes leads from one state to another.
    ghost reads: { Self → List ℕ → Self → Type 0 };

    /// A write of bytes leads from one state to another.
    ghost writes: { Self → List ℕ → Self → Type 0 };

    /// A look at the clock leads from one state to another.
    ghost asks: { Self → ℕ → Self → Type 0 };

    /// An act that fails leads from one state to another. It may have written a part of these bytes, or all: none if it was a read, or a look at
    /// the clock.
    ghost fails: { Self → List ℕ → Self → Type 0 };

    /// Reads what came, into the buffer's beginning: how many bytes, and 0 where nothing came for a while. `None` where that fails.
    fn read(&mut self, buffer: &mut [u8]) -> Option<usize>
        ensures count { IfSome result (λ n. n ≤ length buffer.old) }
        ensures reads { IfSome result (λ n. reads self.old (take n buffer.new) self.new) }
        ensures failed { IfNone result (fails self.old [] self.new) };

    /// Writes bytes; `false` where that fails.
    fn write(&mut self, bytes: &[u8]) -> bool
        ensures written { result ≡ true → writes self.old bytes.now self.new }
        ensures failed { result ≡ false → fails self.old bytes.now self.new };

    /// The moment, in ticks of 250 ns from whenever its clock began. `None` where the clock fails.
    fn now(&mut self) -> Option<u64>
        ensures asked { IfSome result (λ now. asks self.old now self.new) }
        ensures failed { IfNone result (fails self.old [] self.new) };
}
