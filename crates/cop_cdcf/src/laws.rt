//! A law of the concise form.

ghost use Rattle.std.specs.Prelude.{◌≡◌, ◌<◌, ◌^◌, List, All, Some, length};
ghost use Rattle.cop_setup.specs.declared.setting.Setting.{Setting};
ghost use Rattle.cop_cdcf.specs.Concise.{concise_of};
ghost use Rattle.cop_cdcf.specs.Reading.{settings_in, IsWritable};

/// The concise form says which settings there are: who reads it as the standard says has each of them again, in order.
pub fn concise_is_read_again()
    ensures { (settings : List Setting) → All IsWritable settings → length settings < 2 ^ 32 → settings_in (concise_of settings) ≡ Some settings }
{}
