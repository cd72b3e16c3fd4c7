//! COB-IDs of PDOs.

ghost use Rattle.std.specs.Prelude.{◌≡◌, ◌<◌};
ghost use Rattle.cop_dict.specs.Pdo.{exists_by};
ghost use Rattle.cop_pdo.specs.CobIds.{off, on};

/// Whether the PDO with this COB-ID exists: bit 31 is 0 (CiA 301, "PDO communication parameter record").
pub fn exists(cob_id: u32) -> bool
    ensures { result ≡ exists_by cob_id }
{
    cob_id < 1 << 31
}

/// The COB-ID of the same PDO switched off: bit 31 is 1, and the others are as they were.
pub fn off(cob_id: u32) -> u32
    ensures { result ≡ off cob_id }
{
    (1 << 31) + cob_id % (1 << 31)
}

/// The COB-ID of a PDO that exists with an identifier: bit 30 (no RTR) is as it was.
pub fn on(cob_id: u32, id: u16) -> u32
    requires { id < 2048 }
    ensures { result ≡ on cob_id id }
{
    cob_id / (1 << 30) % 2 * (1 << 30) + u32::from(id)
}
