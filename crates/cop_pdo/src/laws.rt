//! What holds of payloads and COB-IDs, whatever the dictionary is.

ghost use Rattle.std.specs.Prelude.{◌≡◌, ◌<◌, ◌+◌, ◌^◌, ◌%◌, ℕ, Bool, List, Ok, Some, true, false, take, drop, slice_get};
ghost use Rattle.cop_dict.specs.declared.mapping.Direction.{Direction};
ghost use Rattle.cop_dict.specs.declared.mapping.Mapped.{Mapped};
ghost use Rattle.cop_dict.specs.Find.{Entry, entry_at};
ghost use Rattle.cop_dict.specs.Mapping.{is_dummy, total_bits};
ghost use Rattle.cop_dict.specs.Dict.{written, with_value, initial, initial_communication};
ghost use Rattle.cop_dict.specs.Fitting.{HasFittingValues};
ghost use Rattle.cop_dict.specs.Pdo.{exists_by};
ghost use Rattle.cop_pdo.specs.CobIds.{off, on};
ghost use Rattle.cop_pdo.specs.Payload.{Layout, HasObjects, is_same_layout};
ghost use Rattle.cop_pdo.specs.Bits.{bits_of_number, bytes_of_bits, bytes_for, mapped_number, payload_bits, unpacked, is_mapped, value_at, HasProperValues};
ghost use Rattle.cop_pdo.specs.Sent.{HasEntryAt};

/// What leaves the types of a dictionary's objects leaves the objects of a mapping: accepted writes, stores, resets, and what
/// is unpacked by any mapping.
pub fn objects_stay()
    ensures writes { (dict new : List Entry) (index sub : ℕ) (bytes : List ℕ) (layout : Layout) → written dict index sub bytes ≡ Ok new → HasObjects dict layout → HasObjects new layout }
    ensures stores { (dict : List Entry) (index sub : ℕ) (bytes : List ℕ) (layout : Layout) → HasObjects dict layout → HasObjects (with_value index sub bytes dict) layout }
    ensures resets { (dict : List Entry) (layout : Layout) → HasObjects dict layout → HasObjects (initial dict) layout × HasObjects (initial_communication dict) layout }
    ensures unpacking { (dict : List Entry) (direction : Direction) (entries : List Mapped) (bits : List Bool) (layout : Layout)
        → HasObjects dict layout → HasObjects (unpacked dict direction entries bits) layout }
{}

/// To unpack what was packed gives each mapped object the value that it had then. Whatever is unpacked leaves each entry that is not
/// mapped as it is.
pub fn unpacking_restores()
    ensures mapped { (dict now : List Entry) (layout : Layout) (index sub : ℕ) → HasObjects dict layout → HasObjects now layout → HasProperValues dict layout
        → is_mapped layout.direction layout.entries index sub ≡ true
        → value_at (unpacked now layout.direction layout.entries (payload_bits dict layout)) index sub ≡ value_at dict index sub }
    ensures others { (now : List Entry) (layout : Layout) (bits : List Bool) (index sub : ℕ) → is_mapped layout.direction layout.entries index sub ≡ false
        → entry_at (unpacked now layout.direction layout.entries bits) index sub ≡ entry_at now index sub }
{}

/// Where values fit their types, each object of a mapping has a value of its bits, and no more bits, so that unpacking
/// restores it; and they fit still after whatever is unpacked. A built dictionary has such values, and keeps them
/// (`cop_dict::values_fit_their_types`).
pub fn unpacked_values_fit()
    ensures mapped { (dict : List Entry) (layout : Layout) → HasObjects dict layout → HasFittingValues dict → HasProperValues dict layout }
    ensures unpacking { (dict : List Entry) (layout : Layout) (bits : List Bool) → HasObjects dict layout → HasFittingValues dict
        → HasFittingValues (unpacked dict layout.direction layout.entries bits) }
{}

/// What one node sends, the other has: where a sent and a received PDO have the same layout, each object that the received
/// one maps, by the last entry that maps it, gets the bits of the sent entry that begins at the same bit and is as wide.
pub fn what_is_sent_is_received()
    ensures { (sender receiver : List Entry) (sent layout : Layout) (k : ℕ) (m : Mapped) → is_same_layout sent layout ≡ true → HasObjects receiver layout
        → slice_get layout.entries k ≡ Some m → is_dummy layout.direction m ≡ false → is_mapped layout.direction (drop (k + 1) layout.entries) m.index m.sub ≡ false
        → (source : Mapped) × HasEntryAt sent (total_bits (take k layout.entries)) m.bits source
        × (value_at (unpacked receiver layout.direction layout.entries (payload_bits sender sent)) m.index m.sub ≡ Some (bytes_of_bits (bytes_for m.bits) (bits_of_number m.bits (mapped_number sender sent.direction source)))) }
{}

/// A PDO that is switched off does not exist, and one that is given an identifier exists with it. That it was switched off
/// before is of no account to the COB-ID that it gets, and switching off keeps the identifier, as CiA 301 asks of a PDO
/// that exists.
pub fn cob_ids_are_switched()
    ensures off { (cob_id : ℕ) → exists_by (off cob_id) ≡ false }
    ensures on { (cob_id id : ℕ) → id < 2 ^ 11 → exists_by (on cob_id id) ≡ true }
    ensures identifier { (cob_id id : ℕ) → id < 2 ^ 11 → on cob_id id % 2 ^ 11 ≡ id }
    ensures kept { (cob_id : ℕ) → off cob_id % 2 ^ 30 ≡ cob_id % 2 ^ 30 }
    ensures after { (cob_id id : ℕ) → cob_id < 2 ^ 32 → on (off cob_id) id ≡ on cob_id id }
    ensures small { (cob_id id : ℕ) → id < 2 ^ 11 → (off cob_id < 2 ^ 32) × (on cob_id id < 2 ^ 31) }
{}
