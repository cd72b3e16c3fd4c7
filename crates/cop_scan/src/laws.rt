//! What holds of all scans.

ghost use Rattle.std.specs.Prelude.{ℕ, List};
ghost use Rattle.std.specs.List.{AllByRecursion};
ghost use Rattle.cop_scan.specs.Scanning.{questions_of};
ghost use Rattle.cop_scan.specs.Laws.{IsRead};

/// Each question of a scan is asked by the request of an upload.
pub fn scans_read_alone()
    ensures { (nodes : List ℕ) → AllByRecursion IsRead (questions_of nodes) }
{}
