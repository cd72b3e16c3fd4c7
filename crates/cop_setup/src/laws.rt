//! Laws of settings that a device takes.

ghost use Rattle.std.specs.Prelude.{◌≡◌, ℕ, List, All};
ghost use Rattle.cop_dict.specs.declared.mapping.Direction.{Direction};
ghost use Rattle.cop_dict.specs.Find.{Entry, entry_at, IsSorted};
ghost use Rattle.cop_pdo.specs.Payload.{payload_of, mapping_of};
ghost use Rattle.cop_setup.specs.declared.setting.Setting.{Setting};
ghost use Rattle.cop_setup.specs.Settings.{planned, IsFit, IsNumber};
ghost use Rattle.cop_setup.specs.InTurn.{AcceptsInTurn, AreApart, IsElsewhere, TakesEach, HaveValues};
ghost use Rattle.cop_setup.specs.Offs.{every_off, AreBeside};
ghost use Rattle.cop_setup.specs.Trying.{TakesInTurn};

/// Settings at different addresses are accepted in turn, where each is accepted alone. Afterwards each has its value, and
/// each other object is as it was.
pub fn apart_are_accepted()
    ensures accepted { (settings : List Setting) (dict : List Entry) → AreApart settings → TakesEach dict settings → AcceptsInTurn dict settings }
    ensures values { (settings : List Setting) (dict : List Entry) → AreApart settings → HaveValues dict (planned dict settings) settings }
    ensures others { (settings : List Setting) (dict : List Entry) (index sub : ℕ) → IsElsewhere index sub settings → entry_at (planned dict settings) index sub ≡ entry_at dict index sub }
{}

/// What a device takes in turn it accepts in turn, at objects whose values have one width, so it wants no memory for it.
pub fn taken_are_accepted()
    ensures { (settings : List Setting) (dict : List Entry) → TakesInTurn dict settings → AcceptsInTurn dict settings }
{}

/// Settings that a device takes in turn are numbers of their objects' types, where each value fits its bytes: so a DCF can say them.
pub fn taken_are_numbers()
    ensures { (settings : List Setting) (dict : List Entry) → All IsFit settings → TakesInTurn dict settings → All (IsNumber dict) settings }
{}

/// A device takes in turn that each PDO of it which can be switched off is so.
pub fn every_off_is_taken()
    ensures { (dict : List Entry) → IsSorted dict → AcceptsInTurn dict (every_off dict) }
{}

/// Settings beside the record of a mapping leave what the PDO moves.
pub fn payloads_stay()
    ensures { (settings : List Setting) (dict : List Entry) (direction : Direction) (number : ℕ) → AreBeside (mapping_of direction number) settings
        → payload_of (planned dict settings) direction number ≡ payload_of dict direction number }
{}
