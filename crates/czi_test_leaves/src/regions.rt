ghost use Rattle.std.specs.Prelude.{◌≡◌, ◌≤◌, [], IfOk};
ghost use Rattle.czi_region.specs.Pieces.{bytes_put, room};

use czi_region::{Piece, Region, written_piece};
use std::alloc::{AllocError, Global};
use std::process::Abort;
use std::test::Fail;

/// An empty region with room for so many bytes.
fn region_of(alloc: Global, n: usize) -> Result<Region, AllocError>
    ensures empty { IfOk result (λ r. bytes_put r ≡ []) }
    ensures room { IfOk result (λ r. n ≤ room r) }
{
    let mut region = Region::new(alloc);
    region.ensure(n)?;
    Ok(region)
}

#[test]
fn pieces_read_back(rt: HostRuntime) -> Result<(), Fail> {
    assert!(rt; Region::new(rt.alloc()).room() == 0);
    let mut region = region_of(rt.alloc(), 8)?;
    check_pieces(&rt, &mut region);
    Ok(())
}

fn check_pieces(rt: &impl Abort, region: &mut Region)
    requires { 8 ≤ room region.old }
{
    let room = region.room();
    let abc = region.put(b"abc");
    let zeros = region.zeros(2);
    let de = region.put(b"de");
    assert!(rt; region.get(&abc) == b"abc".as_slice());
    assert!(rt; region.get(&zeros) == [0, 0].as_slice());
    assert!(rt; region.get(&de) == b"de".as_slice());
    assert!(rt; abc == Piece { at: 0, len: 3 } && zeros == Piece { at: 3, len: 2 });
    assert!(rt; de == Piece { at: 5, len: 2 } && region.room() + 7 == room);
}

#[test]
fn written_and_reset(rt: HostRuntime) -> Result<(), Fail> {
    let mut region = region_of(rt.alloc(), 6)?;
    check_written(&rt, &mut region);
    region.reset();
    assert!(rt; region.room() >= 6);
    region.ensure(9)?;
    assert!(rt; region.room() >= 9);
    Ok(())
}

fn check_written(rt: &impl Abort, region: &mut Region)
    requires { 6 ≤ room region.old }
{
    let front = region.put(b"one");
    let back = region.put(b"two");
    let lent = region.get_mut(&front);
    assert!(rt; lent.len() == 3);
    lent.copy_from_slice(b"six");
    written_piece();
    assert!(rt; region.get(&front) == b"six".as_slice());
    assert!(rt; region.get(&back) == b"two".as_slice());
}
