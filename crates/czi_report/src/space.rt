//! `map`: where space is free, and where it is held back.

ghost use Rattle.std.specs.Prelude.{◌≡◌, ◌++◌, codes, map as mapped, OnOk, OnErr};
ghost use Rattle.czi_doc.specs.Grows.{Grows};
ghost use Rattle.czi_format.specs.Space.{free_runs};
ghost use Rattle.czi_num.specs.Span.{span_of};
ghost use Rattle.czi_report.specs.Text.{items_text, map_text, span_line};

use crate::text::{end_with_number, end_with_span};
use czi_num::Span;
use czi_space::Map;
use std::alloc::AllocError;

/// Appends the image's length, how many free runs there are and a line for each, and how many held spans there are and a line for
/// each. A line says the place and how many bytes lie there; they are in order of place. Where memory runs out `out` stays as it
/// was.
pub fn map(space: &Map, out: &mut Vec<u8>) -> Result<(), AllocError>
    ensures ok { OnOk result (out.new.items ≡ out.old.items ++ map_text space.now.length (free_runs space.now.held space.now.extents) space.now.held) }
    ensures err { OnErr result (out.new.items ≡ out.old.items) }
{
    let before = out.len();
    let said = push_map(space, out);
    if said.is_err() {
        out.truncate(before);
    }
    said
}

/// Appends all lines.
#[tactic(auto, unfolding(crate::specs::Text::map_text))]
fn push_map(space: &Map, out: &mut Vec<u8>) -> Result<(), AllocError>
    ensures ok { OnOk result (out.new.items ≡ out.old.items ++ map_text space.now.length (free_runs space.now.held space.now.extents) space.now.held) }
    ensures err { OnErr result (Grows out.old.items out.new.items) }
{
    let runs = space.runs()?;
    end_with_number(b"length ", space.length(), out)?;
    push_spans(b"runs ", b"run ", &runs, out)?;
    push_spans(b"held ", b"held ", space.held(), out)
}

/// Appends how many spans there are, behind a word, and a line for each, behind another.
pub(crate) fn push_spans(
    count: &[u8],
    label: &[u8],
    spans: &[Span],
    out: &mut Vec<u8>,
) -> Result<(), AllocError>
    ensures ok { OnOk result (out.new.items ≡ out.old.items ++ items_text count.now (span_line label.now) (mapped span_of spans.now)) }
    ensures err { OnErr result (Grows out.old.items out.new.items) }
{
    end_with_number(count, spans.len() as u64, out)?;
    for span in spans {
        end_with_span(label, span, out)?;
    }
    Ok(())
}
