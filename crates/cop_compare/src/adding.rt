//! Lists that grow.

ghost use Rattle.std.specs.Prelude.{◌≡◌, ◌++◌, [], OnOk};
ghost use Rattle.std.specs.List.{cons_option};

use std::alloc::AllocError;

/// Adds an item, if there is one.
pub fn add<T: Copy>(all: &mut Vec<T>, item: Option<T>) -> Result<(), AllocError>
    ensures { OnOk result (all.new.items ≡ all.old.items ++ cons_option item []) }
{
    if let Some(item) = item {
        all.push(item)?;
    }
    Ok(())
}
