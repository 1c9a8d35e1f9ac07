//! The order of spans, and neighbours that meet.

ghost use Rattle.std.specs.Prelude.{◌≡◌, map, option_map};
ghost use Rattle.std.specs.List.Sorted.{IsPermutation};
ghost use Rattle.czi_format.specs.Span.{span_le, sorted};
ghost use Rattle.czi_format.specs.Refusals.{first_meeting};
ghost use Rattle.czi_num.specs.Span.{span_of};
ghost use Rattle.czi_spans.specs.Apart.{first_of, overlap_of};

use czi_num::{Span, meets};

/// Sorts spans by place, and those at one place by length.
pub fn sort_spans(spans: &mut [Span])
    ensures { map span_of spans.new ≡ sorted span_le (map span_of spans.old) }
{
    spans.sort_unstable_by_key(|span| (span.at, span.len));
}

/// Sorts items by the places of their spans, and those at one place by the lengths of their spans.
pub fn sort_items<T>(items: &mut [(Span, T)])
    ensures spans { map first_of items.new ≡ sorted span_le (map first_of items.old) }
    ensures items { IsPermutation items.old items.new }
{
    items.sort_unstable_by_key(|item| (item.0.at, item.0.len));
}

/// The first two neighbours in a list that meet. In a sorted list of spans that aren't empty there are none
/// exactly where no two spans of the list meet.
pub fn first_meeting(spans: &[Span]) -> Option<(Span, Span)>
    ensures { option_map overlap_of result ≡ first_meeting (map span_of spans.now) }
{
    for i in 1..spans.len() {
        if meets(&spans[i - 1], &spans[i]) {
            return Some((spans[i - 1], spans[i]));
        }
    }
    None
}
