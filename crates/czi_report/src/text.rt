//! Pieces of lines. Where memory runs out, `out` may have a front of the piece more.

ghost use Rattle.std.specs.Prelude.{◌≡◌, ◌≤◌, ◌+◌, ◌++◌, IsOk, OnOk, OnErr, length, vec_len, vec_capacity};
ghost use Rattle.czi_format.specs.Text.{bytes_text, dims_text, up_to_zero};
ghost use Rattle.czi_doc.specs.Grows.{Grows};
ghost use Rattle.czi_doc.specs.View.{dims_of};
ghost use Rattle.czi_num.specs.Span.{span_of};
ghost use Rattle.czi_report.specs.Text.{guid_text, line_feed, numbers_line, span_text, text_line};

use czi_att::write_guid;
use czi_doc::{Dims, write_dims, write_name};
use czi_num::Span;
use itoa::{Buffer, Integer};
use std::alloc::AllocError;

/// Appends a label and a number. Where `out` has room for the label and the longest number of the type, that takes no memory.
pub fn push_number<I: Integer>(label: &[u8], number: I, out: &mut Vec<u8>) -> Result<(), AllocError>
    ensures ok { OnOk result (out.new.items ≡ out.old.items ++ (label.now ++ I.text number)) }
    ensures err { OnErr result (Grows out.old.items out.new.items) }
    ensures len { OnOk result (vec_len out.new ≤ vec_len out.old + length label.now + I.MAX_STR_LEN) }
    ensures room { vec_len out.old + length label.now + I.MAX_STR_LEN ≤ vec_capacity out.old → IsOk result }
    ensures capacity { vec_capacity out.old ≤ vec_capacity out.new }
{
    out.extend_from_slice(label)?;
    out.extend_from_slice(Buffer::new().format(number).as_bytes())
}

/// Appends a label, the place of a span, and how many bytes lie there.
#[tactic(auto, unfolding(crate::specs::Text::span_text))]
pub fn push_span(label: &[u8], span: &Span, out: &mut Vec<u8>) -> Result<(), AllocError>
    ensures ok { OnOk result (out.new.items ≡ out.old.items ++ (label.now ++ span_text (span_of span.now))) }
    ensures err { OnErr result (Grows out.old.items out.new.items) }
{
    push_number(label, span.at, out)?;
    push_number(b" ", span.len, out)
}

/// Appends a label and the text of a GUID in the stored order of its bytes.
pub fn push_guid(label: &[u8], guid: &[u8; 16], out: &mut Vec<u8>) -> Result<(), AllocError>
    ensures ok { OnOk result (out.new.items ≡ out.old.items ++ (label.now ++ guid_text guid.now)) }
    ensures err { OnErr result (Grows out.old.items out.new.items) }
{
    out.extend_from_slice(label)?;
    out.extend_from_slice(&write_guid(guid))?;
    Ok(())
}

/// Appends a label and the text of a name, which is padded with zero bytes.
pub fn push_name(label: &[u8], name: &[u8], out: &mut Vec<u8>) -> Result<(), AllocError>
    ensures ok { OnOk result (out.new.items ≡ out.old.items ++ (label.now ++ bytes_text (up_to_zero name.now))) }
    ensures err { OnErr result (Grows out.old.items out.new.items) }
{
    out.extend_from_slice(label)?;
    write_name(name, out)
}

/// Appends a label and a number, and ends the line. Where `out` has room for them and the line feed, that takes no memory.
#[tactic(auto, unfolding(crate::specs::Text::text_line))]
pub fn end_with_number<I: Integer>(
    label: &[u8],
    number: I,
    out: &mut Vec<u8>,
) -> Result<(), AllocError>
    ensures ok { OnOk result (out.new.items ≡ out.old.items ++ text_line label.now (I.text number)) }
    ensures err { OnErr result (Grows out.old.items out.new.items) }
    ensures room { vec_len out.old + length label.now + I.MAX_STR_LEN + 1 ≤ vec_capacity out.old → IsOk result }
{
    push_number(label, number, out)?;
    out.extend_from_slice(b"\n")
}

/// Appends a label and two numbers, and ends the line.
#[tactic(auto, unfolding(crate::specs::Text::text_line))]
pub fn end_with_numbers(
    label: &[u8],
    first: u64,
    second: u64,
    out: &mut Vec<u8>,
) -> Result<(), AllocError>
    ensures ok { OnOk result (out.new.items ≡ out.old.items ++ numbers_line label.now first second) }
    ensures err { OnErr result (Grows out.old.items out.new.items) }
{
    push_number(label, first, out)?;
    end_with_number(b" ", second, out)
}

/// Appends a label, the place of a span and how many bytes lie there, and ends the line.
#[tactic(auto, unfolding(crate::specs::Text::text_line))]
pub fn end_with_span(label: &[u8], span: &Span, out: &mut Vec<u8>) -> Result<(), AllocError>
    ensures ok { OnOk result (out.new.items ≡ out.old.items ++ text_line label.now (span_text (span_of span.now))) }
    ensures err { OnErr result (Grows out.old.items out.new.items) }
{
    push_span(label, span, out)?;
    out.extend_from_slice(b"\n")
}

/// Appends a label and dimension text, and ends the line.
pub fn end_with_dims(label: &[u8], dims: &Dims, out: &mut Vec<u8>) -> Result<(), AllocError>
    ensures ok { OnOk result (out.new.items ≡ out.old.items ++ (label.now ++ (dims_text (dims_of dims.now) ++ line_feed))) }
    ensures err { OnErr result (Grows out.old.items out.new.items) }
{
    out.extend_from_slice(label)?;
    write_dims(dims, out)?;
    out.extend_from_slice(b"\n")
}
