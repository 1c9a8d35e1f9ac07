//! Why an image isn't opened, or isn't taken for a new document, as a line of text.

ghost use Rattle.std.specs.Prelude.{◌≡◌, ◌++◌, OnOk, OnErr};
ghost use Rattle.czi_doc.specs.Grows.{Grows};
ghost use Rattle.czi_format.specs.Refusals.{overlap, too_many};
ghost use Rattle.czi_num.specs.Span.{span_of};
ghost use Rattle.czi_opening.specs.Answers.{cause_of, refusal_of};
ghost use Rattle.czi_opening.specs.Opens.{of_another};
ghost use Rattle.czi_report.specs.Refusals.{cause_text, not_empty_text, refusal_text, told_text};

use crate::text::{end_with_number, end_with_numbers, push_guid, push_number, push_span};
use czi_num::Span;
use czi_opening::{ImageRefusal, OpenError};
use std::alloc::AllocError;

/// Appends the line of the cause that an error of opening tells. A fault of a device and want of memory tell none, and have no
/// line.
#[tactic(auto, unfolding(crate::specs::Refusals::cause_text))]
pub fn push_cause(error: &OpenError, out: &mut Vec<u8>) -> Result<(), AllocError>
    ensures ok { OnOk result (out.new.items ≡ out.old.items ++ told_text (cause_of error.now)) }
    ensures err { OnErr result (Grows out.old.items out.new.items) }
{
    match *error {
        OpenError::JournalVersion(version) => end_with_number(b"refused version ", version, out),
        OpenError::BadJournal(place) => end_with_number(b"refused journal ", place, out),
        OpenError::ImageShort { have, need } => end_with_numbers(
            b"refused short ",
            have,
            need,
            out,
        ),
        OpenError::ForeignJournal { journal, image } => push_foreign(&journal, &image, out),
        OpenError::Refused(refusal) => push_refusal(&refusal, out),
        OpenError::ImageDevice | OpenError::JournalDevice | OpenError::Memory => Ok(()),
    }
}

/// Appends the line of an image of so many bytes in which no document is created: it has to be empty.
#[tactic(auto, unfolding(crate::specs::Refusals::not_empty_text))]
pub fn push_not_empty(length: u64, out: &mut Vec<u8>) -> Result<(), AllocError>
    ensures ok { OnOk result (out.new.items ≡ out.old.items ++ not_empty_text length) }
    ensures err { OnErr result (Grows out.old.items out.new.items) }
{
    end_with_number(b"refused notempty ", length, out)
}

/// Appends the line of the rule of reading that refuses the image.
#[tactic(auto, unfolding(crate::specs::Refusals::refusal_text))]
fn push_refusal(refusal: &ImageRefusal, out: &mut Vec<u8>) -> Result<(), AllocError>
    ensures ok { OnOk result (out.new.items ≡ out.old.items ++ refusal_text (refusal_of refusal.now)) }
    ensures err { OnErr result (Grows out.old.items out.new.items) }
{
    match *refusal {
        ImageRefusal::NotCzi => out.extend_from_slice(b"refused notczi\n"),
        ImageRefusal::MultiPart(part) => end_with_number(b"refused multipart ", part, out),
        ImageRefusal::Pending(value) => end_with_number(b"refused pending ", value, out),
        ImageRefusal::BadDirectory(place) => end_with_number(b"refused directory ", place, out),
        ImageRefusal::TooMany(place, count) => push_too_many(place, count, out),
        ImageRefusal::BadEntry(place) => end_with_number(b"refused entry ", place, out),
        ImageRefusal::BadSegment(place) => end_with_number(b"refused segment ", place, out),
        ImageRefusal::BadAttachment(place) => end_with_number(b"refused attachment ", place, out),
        ImageRefusal::Overlap(first, second) => push_overlap(&first, &second, out),
    }
}

/// Appends the line of a directory with too many entries.
#[tactic(auto, unfolding(crate::specs::Refusals::refusal_text))]
fn push_too_many(place: i64, count: u64, out: &mut Vec<u8>) -> Result<(), AllocError>
    ensures ok { OnOk result (out.new.items ≡ out.old.items ++ refusal_text (too_many place count)) }
    ensures err { OnErr result (Grows out.old.items out.new.items) }
{
    push_number(b"refused many ", place, out)?;
    end_with_number(b" ", count, out)?;
    Ok(())
}

/// Appends the line of two live segments that overlap.
#[tactic(auto, unfolding(crate::specs::Refusals::refusal_text))]
fn push_overlap(first: &Span, second: &Span, out: &mut Vec<u8>) -> Result<(), AllocError>
    ensures ok { OnOk result (out.new.items ≡ out.old.items ++ refusal_text (overlap (span_of first.now) (span_of second.now))) }
    ensures err { OnErr result (Grows out.old.items out.new.items) }
{
    push_span(b"refused overlap ", first, out)?;
    push_span(b" ", second, out)?;
    out.extend_from_slice(b"\n")
}

/// Appends the line of a journal of another image.
#[tactic(auto, unfolding(crate::specs::Refusals::cause_text))]
fn push_foreign(journal: &[u8; 16], image: &[u8; 16], out: &mut Vec<u8>) -> Result<(), AllocError>
    ensures ok { OnOk result (out.new.items ≡ out.old.items ++ cause_text (of_another journal.now image.now)) }
    ensures err { OnErr result (Grows out.old.items out.new.items) }
{
    push_guid(b"refused foreign ", journal, out)?;
    push_guid(b" ", image, out)?;
    out.extend_from_slice(b"\n")
}
