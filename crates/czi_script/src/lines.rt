//! One line of a script.

ghost use Rattle.std.specs.Prelude.{◌≡◌, ◌<◌, ◌≤◌, length, take, bytes_eq, MatchResult};
ghost use Rattle.std.specs.List.{list_any};
ghost use Rattle.czi_script.specs.Script.{HasNo, IsHead, is_among, later_words};
ghost use Rattle.czi_script.specs.View.{head_of};
ghost use Rattle.czi_script.specs.Pieces.{IsFront, GivesNoCommand};

use crate::attachments::{attachment_in, detach_in, metadata_in};
use crate::fields::{Refusal, bare_in, len_before, remove_in, tile_in};
use crate::head::{Head, Plain};
use crate::kind::Kind;
use crate::payload::Verb;
use crate::regions::region_in;
use std::alloc::Global;

/// How many bytes a line has at most, with its line feed.
pub(crate) const LINE: usize = 4096;

/// What stands in front of the bytes.
#[derive(Clone, Copy, PartialEq, Eq)]
pub(crate) enum Front {
    /// A line of so many bytes, and its line feed.
    Line(usize),
    /// 4,096 bytes without a line feed.
    Long,
    /// The beginning of a line.
    Part,
}

/// What stands in front of the bytes. The first `seen` of them were looked at before, and are no line feed.
pub(crate) fn front_of(bytes: &[u8], seen: usize) -> Front
    requires inside { seen ≤ length bytes.now }
    requires few { seen < 4096 }
    requires free { HasNo 10 (take seen bytes.now) }
    ensures { IsFront bytes.now result }
{
    let front = &bytes[..bytes.len().min(LINE)];
    let len = seen + len_before(b'\n', &front[seen..]);
    if len < front.len() {
        Front::Line(len)
    } else if len == LINE {
        Front::Long
    } else {
        Front::Part
    }
}

/// The command words of the format that aren't built yet.
const LATER_WORDS: [&str; 1] = ["repack"];

/// Whether the bytes are this text.
fn is_text(bytes: &[u8], text: &str) -> bool
    ensures { result ≡ bytes_eq bytes.now text.now }
{
    bytes == text.as_bytes()
}

/// Whether the bytes are one of these texts.
fn is_any_text(bytes: &[u8], texts: &[&str]) -> bool
    ensures { result ≡ list_any (λ text. bytes_eq bytes.now text.now) texts.now }
{
    texts.iter().any(|text| is_text(bytes, text))
}

/// Whether the word is a command of the format that isn't built yet.
fn is_later(word: &[u8]) -> bool
    ensures { result ≡ is_among later_words word.now }
{
    is_any_text(word, &LATER_WORDS)
}

/// What a line says, without its line feed.
pub(crate) fn head_in(alloc: Global, line: &[u8]) -> Result<Head, Refusal>
    ensures { MatchResult result (λ h. IsHead (head_of h) line.now) (GivesNoCommand line.now) }
{
    let (word, fields) = line.split_at(len_before(b' ', line));
    if is_text(word, "add") {
        tile_in(alloc, Verb::Add, fields)
    } else if is_text(word, "replace") {
        tile_in(alloc, Verb::Replace, fields)
    } else if is_text(word, "remove") {
        remove_in(alloc, fields)
    } else if is_text(word, "attach") {
        attachment_in(Verb::Add, fields)
    } else if is_text(word, "reattach") {
        attachment_in(Verb::Replace, fields)
    } else if is_text(word, "detach") {
        detach_in(alloc, fields)
    } else if is_text(word, "meta") {
        metadata_in(fields)
    } else if is_text(word, "undo") {
        bare_in(Plain::Undo, fields)
    } else if is_text(word, "region") {
        region_in(alloc, fields)
    } else if is_text(word, "list") {
        bare_in(Plain::List, fields)
    } else if is_text(word, "info") {
        bare_in(Plain::Info, fields)
    } else if is_text(word, "map") {
        bare_in(Plain::Map, fields)
    } else if is_text(word, "check") {
        bare_in(Plain::Check, fields)
    } else if is_later(word) {
        Err(Refusal::Kind(Kind::Later))
    } else {
        Err(Refusal::Kind(Kind::Word))
    }
}
