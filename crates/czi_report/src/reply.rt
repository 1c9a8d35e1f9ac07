//! The replies to edits.

ghost use Rattle.std.specs.Prelude.{◌≡◌, ◌≤◌, ◌+◌, ◌++◌, IsOk, OnOk, OnErr, vec_len, vec_capacity};
ghost use Rattle.czi_doc.specs.Grows.{Grows};
ghost use Rattle.czi_machine.specs.Edit.{duplicate, full, no_key, nothing, too_long, too_many};
ghost use Rattle.czi_report.specs.Replies.{no_line, ok_line};

use crate::text::{end_with_number, end_with_numbers};
use std::alloc::AllocError;

/// Appends the reply of an edit that was accepted as the one with this number. It has at most 24 bytes.
#[tactic(auto, unfolding(crate::specs::Replies::ok_line))]
pub fn push_ok(number: u64, out: &mut Vec<u8>) -> Result<(), AllocError>
    ensures ok { OnOk result (out.new.items ≡ out.old.items ++ ok_line number) }
    ensures err { OnErr result (Grows out.old.items out.new.items) }
    ensures room { vec_len out.old + 24 ≤ vec_capacity out.old → IsOk result }
{
    end_with_number(b"ok ", number, out)
}

/// Appends the reply of an edit with a payload of so many bytes, which has at most `limit`.
#[tactic(auto, unfolding(crate::specs::Replies::no_line))]
pub fn push_no_long(len: u64, limit: u64, out: &mut Vec<u8>) -> Result<(), AllocError>
    ensures ok { OnOk result (out.new.items ≡ out.old.items ++ no_line (too_long len limit)) }
    ensures err { OnErr result (Grows out.old.items out.new.items) }
{
    end_with_numbers(b"no long ", len, limit, out)
}

/// Appends the reply of an edit whose key no item has.
#[tactic(auto, unfolding(crate::specs::Replies::no_line))]
pub fn push_no_key(out: &mut Vec<u8>) -> Result<(), AllocError>
    ensures ok { OnOk result (out.new.items ≡ out.old.items ++ no_line no_key) }
    ensures err { OnErr result (Grows out.old.items out.new.items) }
{
    out.extend_from_slice(b"no key\n")
}

/// Appends the reply of an undo where no edit is left that could be undone.
#[tactic(auto, unfolding(crate::specs::Replies::no_line))]
pub fn push_no_nothing(out: &mut Vec<u8>) -> Result<(), AllocError>
    ensures ok { OnOk result (out.new.items ≡ out.old.items ++ no_line nothing) }
    ensures err { OnErr result (Grows out.old.items out.new.items) }
{
    out.extend_from_slice(b"no nothing\n")
}

/// Appends the reply of an edit that adds an item whose key the item at this place has. The first place is 0.
#[tactic(auto, unfolding(crate::specs::Replies::no_line))]
pub fn push_no_duplicate(place: u64, out: &mut Vec<u8>) -> Result<(), AllocError>
    ensures ok { OnOk result (out.new.items ≡ out.old.items ++ no_line (duplicate place)) }
    ensures err { OnErr result (Grows out.old.items out.new.items) }
{
    end_with_number(b"no duplicate ", place, out)
}

/// Appends the reply of an edit that adds an item where there are so many already that no more are taken.
#[tactic(auto, unfolding(crate::specs::Replies::no_line))]
pub fn push_no_many(count: u64, out: &mut Vec<u8>) -> Result<(), AllocError>
    ensures ok { OnOk result (out.new.items ≡ out.old.items ++ no_line (too_many count)) }
    ensures err { OnErr result (Grows out.old.items out.new.items) }
{
    end_with_number(b"no many ", count, out)
}

/// Appends the reply of an edit that needs so many bytes, which have no place at that length of the image.
#[tactic(auto, unfolding(crate::specs::Replies::no_line))]
pub fn push_no_full(need: u64, length: u64, out: &mut Vec<u8>) -> Result<(), AllocError>
    ensures ok { OnOk result (out.new.items ≡ out.old.items ++ no_line (full need length)) }
    ensures err { OnErr result (Grows out.old.items out.new.items) }
{
    end_with_numbers(b"no full ", need, length, out)
}
