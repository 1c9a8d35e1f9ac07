ghost use Rattle.std.specs.Prelude.{◌↔◌, IsTrue, Contains};

use std::collections::BTreeSet;

/// Whether the call with this number is to fail.
pub(crate) fn is_to_fail(to_fail: &BTreeSet<u64>, number: u64) -> bool
    ensures { IsTrue result ↔ Contains to_fail.now.keys number }
{
    to_fail.contains(&number)
}
