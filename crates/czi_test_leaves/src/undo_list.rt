ghost use Rattle.std.specs.Prelude.{◌≡◌, ◌≤◌, IfOk};

use czi_undo::{Inverse, Part, UndoList};
use std::alloc::{AllocError, Global};
use std::test::Fail;

/// What undoes a command of so many edits that left all as it was.
fn inverse_of(alloc: Global, edits: u32) -> Result<Inverse, AllocError>
    requires some { 1 ≤ edits }
    requires few { edits ≤ 64 }
    ensures { IfOk result (λ i. i.edits ≡ edits) }
{
    let parts = vec![in alloc; Part::Same]?;
    Ok(Inverse { parts, edits })
}

#[test]
fn newest_first(rt: HostRuntime) -> Result<(), Fail> {
    let alloc = rt.alloc();
    let mut list = UndoList::new(alloc)?;
    assert!(rt; list.pop().is_none());
    list.push_reserved(inverse_of(alloc, 64)?);
    list.push_reserved(inverse_of(alloc, 63)?);
    assert!(rt; list.over().is_none());
    assert!(rt; list.newest().is_some_and(|newest| newest.edits == 63));
    list.push_reserved(inverse_of(alloc, 2)?);
    assert!(rt; list.over().is_some_and(|oldest| oldest.edits == 64));
    assert!(rt; list.pop().is_some_and(|newest| newest.edits == 2));
    assert!(rt; list.len() == 1);
    list.clear();
    assert!(rt; list.newest().is_none());
    Ok(())
}
