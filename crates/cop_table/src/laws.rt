//! What holds of the records of every text.

ghost use Rattle.std.specs.Prelude.{◌≡◌, ℕ, false, List, All};
ghost use Rattle.cop_table.specs.Records.{records_of};
ghost use Rattle.cop_table.specs.Plain.{is_quote, plain_records};

/// In a text without a quote, a byte order mark at its start left out, each line that is not blank is a record, and its
/// fields are what stands between its commas. A carriage return and a line feed end a line, each for itself.
pub fn plain_texts_are_lines_cut_at_commas()
    ensures { (text : List ℕ) → All (λ c. is_quote c ≡ false) text → records_of text ≡ plain_records text }
{}
