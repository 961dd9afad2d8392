// The public check of a table.
ghost use Rattle.std.specs.Prelude.{◌≡◌, ◌<◌, ◌≤◌, length, OnOk};
ghost use Rattle.walk.specs.Bodies.{checked};
ghost use Rattle.checker.specs.Exact.{Exact};

use walk::{CheckFault, Passed, walk_table};

// Whether a table passes, and else the first rule broken.
pub fn check_table(bytes: &[u8]) -> Result<Passed, CheckFault>
    ensures walked { result ≡ checked bytes.now }
    ensures exact { Exact bytes.now result }
    ensures long { OnOk result (length bytes.now ≤ 24771) }
{
    walk_table(bytes)
}
