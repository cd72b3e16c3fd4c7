//! Laws of the definitions that contracts cite.

ghost use Rattle.std.specs.Prelude.{◌≡◌, ◌==◌, ◌<◌, ◌≤◌, ◌+◌, ◌%◌, ◌^◌, ◌&&◌, ℕ, ℤ, List, All, length, true, false, Option, option_map, Some, IfSome, Ok, Err, Contains};
ghost use Rattle.std.specs.Int.{bytes_low_first};
ghost use Rattle.cop_eds.specs.declared.amount.Amount.{Amount};
ghost use Rattle.cop_dict.specs.declared.data_type.DataType.{DataType};
ghost use Rattle.cop_dict.specs.Types.{greatest_of, type_numbered};
ghost use Rattle.cop_dict.specs.Number.{number, value_of};
ghost use Rattle.cop_dict.specs.Patterns.{pattern_of, number_written};
ghost use Rattle.cop_eds.specs.declared.description.Object.{Object};
ghost use Rattle.cop_eds.specs.Objects.{objects_of};
ghost use Rattle.cop_dict.specs.Build.{built, entry_built, AgreesWith};
ghost use Rattle.cop_dict.specs.Pdo.{is_mapping, is_communication, pdo_exists, exists_by, cob_id_at};
ghost use Rattle.cop_dict.specs.Find.{Entry, entry_at, IsSorted, AreAlike};
ghost use Rattle.cop_dict.specs.Dict.{admitted, unless_broken, refused_alone, with_value, valued, as_built, reset_communication, initial, initial_communication, written, Replaces};
ghost use Rattle.cop_dict.specs.Fitting.{FitsType, HasFittingValues};
ghost use Rattle.cop_dict.specs.declared.abort.Abort.{Abort};

/// A write leaves what stands at each other index and sub.
pub fn others_stay()
    ensures { (dict : List Entry) (index sub other part : ℕ) (bytes : List ℕ) → (index == other) && (sub == part) ≡ false
        → entry_at (with_value index sub bytes dict) other part ≡ entry_at dict other part }
{}

/// What is refused before the bytes come is refused with them, if they are as many as stated.
pub fn refused_early_is_refused()
    ensures { (dict : List Entry) (index sub : ℕ) (size : Option ℕ) (bytes : List ℕ) (abort : Abort)
        → IfSome size (λ n. length bytes ≡ n) → admitted dict index sub size ≡ Err abort → written dict index sub bytes ≡ Err abort }
{}

/// A change of a value changes the entry at its index and sub in nothing else.
pub fn value_is_replaced()
    ensures { (dict : List Entry) (index sub : ℕ) (bytes : List ℕ)
        → entry_at (with_value index sub bytes dict) index sub ≡ option_map (valued bytes) (entry_at dict index sub) }
{}

/// A reset gives each entry its initial value, or each in the communication profile area, and
/// changes nothing else.
pub fn resets_are_pointwise()
    ensures { (dict : List Entry) (index sub : ℕ)
        → (entry_at (initial dict) index sub ≡ option_map as_built (entry_at dict index sub))
        × (entry_at (initial_communication dict) index sub ≡ option_map reset_communication (entry_at dict index sub)) }
{}

/// An accepted write replaces the value at its index and sub, and no other.
pub fn accepted_replaces()
    ensures { (dict new : List Entry) (index sub : ℕ) (bytes : List ℕ) → written dict index sub bytes ≡ Ok new → Replaces dict new index sub bytes }
{}

/// Each entry of a dictionary is the one at its index and sub, so entries differ in them.
pub fn entries_are_found()
    ensures { (dict : List Entry) (entry : Entry) → IsSorted dict → Contains dict entry → entry_at dict entry.index entry.sub ≡ Some entry }
{}

/// After an accepted write the entries rise by index and sub as before.
pub fn accepted_stays_sorted()
    ensures { (dict new : List Entry) (index sub : ℕ) (bytes : List ℕ) → IsSorted dict → written dict index sub bytes ≡ Ok new → IsSorted new }
{}

/// What is built for a node rises by index and sub.
pub fn built_is_sorted()
    ensures { (text : List ℕ) (node : ℕ) (dict : List Entry) → built text node ≡ Ok dict → IsSorted dict }
{}

/// The pattern that a text's value has in a type stands for the number that is written: in decimal
/// digits, with a minus, or as a sum with the node's number.
pub fn patterns_stand_for_numbers()
    ensures { (data_type : DataType) (greatest node pattern : ℕ) (amount : Amount) (number : ℤ)
        → greatest_of data_type ≡ Some greatest → number_written node amount ≡ Some number
        → pattern_of data_type greatest node amount ≡ Some pattern → value_of data_type pattern ≡ number }
{}

/// The bytes of a number that so many bytes hold are that number.
pub fn bytes_are_their_number()
    ensures { (width n : ℕ) → n < 256 ^ width → number (bytes_low_first 0 width n) ≡ n }
{}

/// Bytes are those of the number that they are.
pub fn number_has_its_bytes()
    ensures { (bytes : List ℕ) → All (λ byte. byte < 256) bytes → bytes_low_first 0 (length bytes) (number bytes) ≡ bytes }
{}

/// Whether a write is accepted depends on the entry alone, except at mapping records.
pub fn accepted_by_the_entry()
    ensures { (dict : List Entry) (index sub : ℕ) (bytes : List ℕ) (e : Entry) → entry_at dict index sub ≡ Some e → is_mapping e.index ≡ false
        → written dict index sub bytes ≡ unless_broken (refused_alone e bytes) (with_value index sub bytes dict) }
{}

/// A reset of a dictionary that was built gives it again.
pub fn resets_give_what_was_built()
    ensures { (text : List ℕ) (node : ℕ) (dict : List Entry) → built text node ≡ Ok dict → (initial dict ≡ dict) × (initial_communication dict ≡ dict) }
{}

/// What stands at the address of an object that a text describes is the entry of that object, and nothing else stands
/// anywhere.
pub fn built_is_pointwise()
    ensures each { (text : List ℕ) (node : ℕ) (dict : List Entry) (object : Object) → built text node ≡ Ok dict → Contains (objects_of text) object
        → (entry : Entry) × (entry_built text node object ≡ Ok entry) × (entry_at dict object.index object.sub ≡ Some entry) }
    ensures only { (text : List ℕ) (node index sub : ℕ) (dict : List Entry) (entry : Entry) → built text node ≡ Ok dict → entry_at dict index sub ≡ Some entry
        → (object : Object) × Contains (objects_of text) object × (object.index ≡ index) × (object.sub ≡ sub) × (entry_built text node object ≡ Ok entry) }
{}

/// Why CiA 301 has rules for writes to the records of a PDO: while a PDO exists no accepted write changes an entry of its
/// mapping, and a write that leaves it existing or switches it off leaves bits 0 to 29 of its COB-ID, so its identifier.
pub fn existing_pdos_stay()
    ensures mapping { (dict new : List Entry) (index sub pdo part : ℕ) (bytes : List ℕ) → written dict index sub bytes ≡ Ok new → is_communication pdo ≡ true
        → pdo_exists dict pdo ≡ true → entry_at new (pdo + 0x200) part ≡ entry_at dict (pdo + 0x200) part }
    ensures identifier { (dict new : List Entry) (index sub pdo before after : ℕ) (bytes : List ℕ) → written dict index sub bytes ≡ Ok new → is_communication pdo ≡ true
        → cob_id_at dict pdo ≡ Some before → exists_by before ≡ true → cob_id_at new pdo ≡ Some after → after % 2 ^ 30 ≡ before % 2 ^ 30 }
{}

/// A dictionary depends on the objects that a text describes, and on their values and limits, alone: a text that agrees in
/// these with one that is built builds the same.
pub fn agreeing_texts_build_the_same()
    ensures { (old new : List ℕ) (node : ℕ) (dict : List Entry) → AgreesWith old new → built old node ≡ Ok dict → built new node ≡ Ok dict }
{}

/// What is built has values that fit their types: as many bytes as the type has, and no more bits. Accepted writes of bytes,
/// changes to such values, and resets keep it so.
pub fn values_fit_their_types()
    ensures built { (text : List ℕ) (node : ℕ) (dict : List Entry) → built text node ≡ Ok dict → HasFittingValues dict }
    ensures writes { (dict new : List Entry) (index sub : ℕ) (bytes : List ℕ) → written dict index sub bytes ≡ Ok new → All (λ byte. byte < 256) bytes
        → HasFittingValues dict → HasFittingValues new }
    ensures changes { (dict : List Entry) (index sub : ℕ) (bytes : List ℕ) → IfSome (entry_at dict index sub) (λ entry. FitsType entry.description.data_type bytes)
        → HasFittingValues dict → HasFittingValues (with_value index sub bytes dict) }
    ensures resets { (dict : List Entry) → HasFittingValues dict → HasFittingValues (initial dict) × HasFittingValues (initial_communication dict) }
{}

/// A text of which a dictionary is built for the last node, 127, has one for each node before it, and each has entries of the same
/// types: a value or a limit is one for all nodes, or a number and the node's.
pub fn built_for_the_last_node_is_built_for_each()
    ensures all { (text : List ℕ) (node : ℕ) (last : List Entry) → node ≤ 127 → built text 127 ≡ Ok last → (dict : List Entry) × (built text node ≡ Ok dict) }
    ensures types { (text : List ℕ) (node : ℕ) (object : Object) (entry : Entry) → entry_built text node object ≡ Ok entry → entry.description.data_type ≡ type_numbered object.data_type }
{}

/// Objects of two texts whose entries are alike for the first node and for the last one have entries that are alike for each.
pub fn alike_at_both_ends_is_alike()
    ensures { (old new : List ℕ) (node : ℕ) (object other : Object) (a b c d entry changed : Entry)
        → entry_built old 1 object ≡ Ok a → entry_built new 1 other ≡ Ok b → AreAlike a b
        → entry_built old 127 object ≡ Ok c → entry_built new 127 other ≡ Ok d → AreAlike c d
        → entry_built old node object ≡ Ok entry → entry_built new node other ≡ Ok changed → AreAlike entry changed }
{}
