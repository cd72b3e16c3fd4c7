//! The rule of networks that are tested as they stand.

/// Its number.
pub const NO_IDENTIFIER: u8 = 140;

/// What it says, what is usually behind it, and what is right.
pub(crate) const STANDING_RULE: &str =
    "rule 140: with --as-is, a PDO cannot keep the identifier that its device has for it by the EDS file: it is none that a PDO may have, or an earlier row has it\nusually: a COB-ID without $NODEID, or a PDO that has no identifier until it is set up\nright: 181h to 57Fh or 680h to 6DFh in 1800h sub 1 and on, another one for each row; without --as-is plan chooses them\n";
