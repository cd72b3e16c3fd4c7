//! Where the files of a plan are put.

ghost use Rattle.std.specs.Prelude.{◌≡◌, false, true, OnOk, IfErr};
ghost use Rattle.cop_engine.specs.Outlets.{files_in, with_refusals, WerePut, WereCut};

use crate::dcfs::DcfFile;
use crate::plans::Files;

/// Takes files one by one. Once it has failed it takes no more.
pub trait Outlet {
    ghost use Rattle.std.specs.Prelude.{◌≡◌, Bool, true, false};
    ghost use Rattle.cop_net.specs.Devices.{File};

    /// A put of a file leads from one state to another.
    ghost puts: { Self → File → Self → Type 0 };

    /// A put of a file that fails leads from one state to another.
    ghost cuts: { Self → File → Self → Type 0 } = { λ _ _ _. Unit {0} };

    ghost has_failed: { Self → Bool };

    /// Puts a file, by its name and its bytes; `false` where it fails.
    fn put(&mut self, name: &str, bytes: &[u8]) -> bool
        requires { has_failed self.old ≡ false }
        ensures taken { result ≡ true → puts self.old (record { name = name.now; text = bytes.now }) self.new }
        ensures works { result ≡ true → has_failed self.new ≡ false }
        ensures cut { result ≡ false → cuts self.old (record { name = name.now; text = bytes.now }) self.new }
        ensures fails { result ≡ false → has_failed self.new ≡ true };

    /// Whether it has failed.
    fn failed(&self) -> bool
        ensures { result ≡ has_failed self.now };
}

/// Puts DCF files in their order. Where one fails: how many were put before it.
fn put_dcfs<O: Outlet>(files: &[DcfFile], outlet: &mut O) -> Result<(), usize>
    requires { O.has_failed outlet.old ≡ false }
    ensures all { OnOk result (WerePut O.puts outlet.old files.now outlet.new) }
    ensures works { OnOk result (O.has_failed outlet.new ≡ false) }
    ensures cut { IfErr result (λ k. WereCut O.puts O.cuts O.has_failed outlet.old files.now k outlet.new) }
    ensures fails { IfErr result (λ k. O.has_failed outlet.new ≡ true) }
{
    match files {
        [] => Ok(()),
        [file, rest @ ..] => {
            if !outlet.put(file.name(), file.text()) {
                return Err(0);
            }
            match put_dcfs(rest, outlet) {
                Ok(()) => Ok(()),
                Err(put) => Err(put + 1),
            }
        }
    }
}

/// Puts `refusals.csv` and then the DCF files. Where one fails: how many were put before it.
fn put_refusals<O: Outlet>(refusals: &[u8], dcf: &[DcfFile], outlet: &mut O) -> Result<(), usize>
    requires { O.has_failed outlet.old ≡ false }
    ensures all { OnOk result (WerePut O.puts outlet.old (with_refusals refusals.now dcf.now) outlet.new) }
    ensures works { OnOk result (O.has_failed outlet.new ≡ false) }
    ensures cut { IfErr result (λ k. WereCut O.puts O.cuts O.has_failed outlet.old (with_refusals refusals.now dcf.now) k outlet.new) }
    ensures fails { IfErr result (λ k. O.has_failed outlet.new ≡ true) }
{
    if !outlet.put("refusals.csv", refusals) {
        return Err(0);
    }
    match put_dcfs(dcf, outlet) {
        Ok(()) => Ok(()),
        Err(put) => Err(put + 1),
    }
}

/// Puts the files of a plan: `plan.txt`, `refusals.csv`, and then the DCF files by rising node. It stops at the first that
/// fails, and tells how many were put before it.
pub fn deliver<O: Outlet>(files: &Files, outlet: &mut O) -> Result<(), usize>
    requires { O.has_failed outlet.old ≡ false }
    ensures all { OnOk result (WerePut O.puts outlet.old (files_in files.now) outlet.new) }
    ensures works { OnOk result (O.has_failed outlet.new ≡ false) }
    ensures cut { IfErr result (λ k. WereCut O.puts O.cuts O.has_failed outlet.old (files_in files.now) k outlet.new) }
    ensures fails { IfErr result (λ k. O.has_failed outlet.new ≡ true) }
{
    let dcf = files.dcf.as_slice();
    if !outlet.put("plan.txt", &files.plan) {
        return Err(0);
    }
    match put_refusals(&files.refusals, dcf, outlet) {
        Ok(()) => Ok(()),
        Err(put) => Err(put + 1),
    }
}
