//! What the database means.

ghost use Rattle.std.specs.Prelude.{◌≡◌, ◌+◌, ℕ, List, Some, false, drop, slice_get};
ghost use Rattle.cop_dict.specs.Find.{Entry};
ghost use Rattle.cop_pdo.specs.Payload.{Layout, HasObjects};
ghost use Rattle.cop_pdo.specs.Bits.{bits_of_bytes, bytes_of_bits, bytes_for, unpacked, value_at};
ghost use Rattle.cop_signals.specs.declared.places.Signal.{Signal};
ghost use Rattle.cop_signals.specs.Signals.{signals_of};
ghost use Rattle.cop_signals.specs.Decoding.{decoded, has_object};

/// What is decoded of a signal is the value that its object has once the PDO is unpacked: of an object that is mapped more than
/// once the last signal has it.
pub fn decoded_is_unpacked()
    ensures { (dict : List Entry) (layout : Layout) (body : List ℕ) (k : ℕ) (signal : Signal) → HasObjects dict layout → slice_get (signals_of dict layout) k ≡ Some signal
        → has_object (drop (k + 1) (signals_of dict layout)) signal.index signal.sub ≡ false
        → value_at (unpacked dict layout.direction layout.entries (bits_of_bytes body)) signal.index signal.sub ≡ Some (bytes_of_bits (bytes_for signal.bits) (decoded body signal)) }
{}
