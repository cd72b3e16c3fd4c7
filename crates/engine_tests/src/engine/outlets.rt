//! Files that are put somewhere.

ghost use Rattle.std.specs.Prelude.{◌≡◌, false};

use crate::engine::{NO_PDO, TWO_VALVES, UNIT, eds_files, plan_of};
use cop_engine::{Outlet, deliver};
use std::alloc::Global;
use std::test::Fail;

/// An outlet that notes the names of so many files, and then fails.
#[derive(Drop)]
struct Shelf {
    names: Vec<u8>,
    room: usize,
    failed: bool,
}

impl Outlet for Shelf {
    ghost use Rattle.std.specs.Prelude.{◌≡◌, ◌++◌};

    ghost puts = { λ s f t. t.names.items ≡ s.names.items ++ f.name };

    ghost cuts = { λ s f t. t.names.items ≡ s.names.items };

    ghost has_failed = { λ s. s.failed };

    fn put(&mut self, name: &str, _bytes: &[u8]) -> bool {
        if self.room > 0 && self.names.extend_from_slice(name.as_bytes()).is_ok() {
            self.room -= 1;
            return true;
        }
        self.failed = true;
        false
    }

    fn failed(&self) -> bool {
        self.failed
    }
}

fn with_room(alloc: Global, room: usize) -> Shelf
    ensures { result.failed ≡ false }
{
    Shelf {
        names: Vec::new(alloc),
        room,
        failed: false,
    }
}

/// The names that stand on a shelf with so much room, and where it fails.
const DELIVERED: &[(usize, Option<usize>, &[u8])] = &[
    (0, Some(0), b""),
    (1, Some(1), b"plan.txt"),
    (2, Some(2), b"plan.txtrefusals.csv"),
    (3, Some(3), b"plan.txtrefusals.csvnode-005.dcf"),
    (4, None, b"plan.txtrefusals.csvnode-005.dcfnode-007.dcf"),
];

#[test]
fn an_outlet_fails_at_each_file(rt: HostRuntime) -> Result<(), Fail> {
    let eds = eds_files(rt.alloc(), UNIT)?;
    let files = plan_of(rt.alloc(), TWO_VALVES, NO_PDO, &eds)?;
    for case in DELIVERED {
        let (room, wanted, names) = *case;
        let mut shelf = with_room(rt.alloc(), room);
        assert!(rt; deliver(&files, &mut shelf).err() == wanted);
        assert!(rt; shelf.failed() == wanted.is_some());
        assert!(rt; shelf.names.as_slice() == names);
    }
    Ok(())
}
