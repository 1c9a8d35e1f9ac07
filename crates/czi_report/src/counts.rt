//! `check`: how much of an image is what.

ghost use Rattle.std.specs.Prelude.{◌≡◌, ◌+◌, ◌++◌, length, OnOk, OnErr};
ghost use Rattle.czi_doc.specs.Grows.{Grows};
ghost use Rattle.czi_format.specs.Layout.{Layout};
ghost use Rattle.czi_image.specs.Holds.{LiesAs};
ghost use Rattle.czi_machine.specs.Places.{live_places};
ghost use Rattle.czi_report.specs.States.{check_of};

use crate::text::{end_with_number, push_number};
use czi_image::Index;
use std::alloc::AllocError;

/// Appends a line of how many live segments there are, how many extents of `DELETED` segments, how many segments of the walk that
/// are neither, and how many bytes past the walk's end. Where memory runs out `out` stays as it was.
pub fn check(index: &Index, out: &mut Vec<u8>) -> Result<(), AllocError>
    ensures ok { OnOk result ((l : Layout) → LiesAs l index.now → out.new.items ≡ out.old.items ++ check_of l) }
    ensures err { OnErr result (out.new.items ≡ out.old.items) }
{
    let before = out.len();
    let said = push_counts(index, out);
    if said.is_err() {
        out.truncate(before);
    }
    said
}

/// Appends the line.
#[tactic(auto, unfolding(crate::specs::Text::check_text))]
fn push_counts(index: &Index, out: &mut Vec<u8>) -> Result<(), AllocError>
    ensures ok { OnOk result ((l : Layout) → LiesAs l index.now → out.new.items ≡ out.old.items ++ check_of l) }
    ensures err { OnErr result (Grows out.old.items out.new.items) }
{
    push_number(b"check live=", count_live(index), out)?;
    push_number(b" runs=", index.extents.len() as u64, out)?;
    push_number(b" unknown=", index.unknown, out)?;
    end_with_number(b" tail=", index.length - index.walk_end, out)?;
    Ok(())
}

/// How many live segments there are: the file header, the directories that are there, the subblocks, the attachments, and the
/// metadata if there are some.
fn count_live(index: &Index) -> u64
    ensures { (l : Layout) → LiesAs l index.now → result ≡ 1 + length (live_places l) }
{
    let directories = index.directory.is_some() as u64 + index.attdir.is_some() as u64;
    let items = index.tiles.len() as u64 + index.attachments.len() as u64;
    1 + directories + items + index.metadata.is_some() as u64
}
