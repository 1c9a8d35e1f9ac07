ghost use Rattle.std.specs.Prelude.{◌≡◌, ◌≤◌, ◌+◌, [], length, drop, MatchOption, IfOk, IfErr, OnErr};
ghost use Rattle.czi_format.specs.Bytes.{u32_at, u64_at};
ghost use Rattle.czi_links.specs.Record.{record_of};
ghost use Rattle.czi_links.specs.Reading.{AreLinks, IsAnswer, IsRead, IsWithin, KeepsRules, links_at, read};

use crate::head::{LinkFault, RECORD_HEAD, SlotHead, VERSION};
use crate::numbers::{FIRST_PLACE, LEAST_LENGTH};
use crate::write_set::{LINK_HEAD, Links};
use czi_num::{read_bytes, read_u32, read_u64};

/// The greatest committed length.
const LONGEST: u64 = 1 << 62;

/// The record that a slot begins with: its head, and its links in place of those of `into`. After an error
/// `into` has none. What follows the last link isn't looked at.
pub fn decode(slot: &[u8], into: &mut Links) -> Result<SlotHead, LinkFault>
    requires { 32 ≤ length slot.now }

    // The record that the slot holds, or the refusal of the first field that breaks the grammar.
    ensures answer { IsAnswer (read slot.now) into.new.links result }
    ensures rules { IfOk result (λ head. IsRead (record_of head into.new.links)) }
    ensures place { IfErr result (IsWithin (length slot.now)) }
    ensures emptied { OnErr result (into.new.links ≡ []) }
{
    into.clear();
    let version = read_u32(slot, 0);
    if version != VERSION {
        return Err(LinkFault::Version(version));
    }
    let length = read_u64(slot, 20);
    if length < LEAST_LENGTH || length > LONGEST {
        return Err(LinkFault::Bad(20));
    }
    let count = read_u32(slot, 28);
    if let Err(fault) = read_links(slot, count, length, into) {
        into.clear();
        return Err(fault);
    }
    Ok(SlotHead {
        guid: read_bytes(slot, 4),
        length,
    })
}

/// Puts the links of a slot into `into`, which has none.
fn read_links(slot: &[u8], count: u32, limit: u64, into: &mut Links) -> Result<(), LinkFault>
    requires head { 32 ≤ length slot.now }
    requires empty { into.old.links ≡ [] }
    ensures links { AreLinks (links_at count 32 FIRST_PLACE limit (drop 32 slot.now)) into.new.links result }
    ensures place { IfErr result (IsWithin (length slot.now)) }
{
    let mut at = RECORD_HEAD;
    let mut from = FIRST_PLACE;
    for _taken in 0..count {
        let Some((place, len)) = read_link(slot, at, from, limit) else {
            return Err(LinkFault::Bad(at as u64));
        };
        into.reserve(1, len)?;
        let begin = at + LINK_HEAD;
        into.push(place, &slot[begin..begin + len]);
        at = begin + len;
        from = place + len as u64;
    }
    Ok(())
}

/// The place and the number of bytes of the link that begins at a place of the slot, where it keeps the rules.
fn read_link(slot: &[u8], at: usize, from: u64, limit: u64) -> Option<(u64, usize)>
    requires { at ≤ length slot.now }
    ensures { let rest = drop at slot.now in
        let rules = KeepsRules (u64_at rest 0) (u32_at rest 8) from limit (length rest) in
        MatchOption result (rules → ⊥) (λ l. rules × (l.0 ≡ u64_at rest 0) × (l.1 ≡ u32_at rest 8)) }
{
    let room = slot.len() - at;
    if room < LINK_HEAD {
        return None;
    }
    let place = read_u64(slot, at);
    let size = read_u32(slot, at + 8);
    let len = size as usize;
    if len == 0 || len > room - LINK_HEAD {
        return None;
    }
    if place < from || place > limit || u64::from(size) > limit - place {
        return None;
    }
    Some((place, len))
}
