//! Changes of sorted lists of spans at a place that a binary search found.

ghost use Rattle.std.specs.Prelude.{◌≡◌, ℕ, ◌++◌, ◌+◌, ◌≤◌, ◌<◌, map, length, take, drop, vec_len, vec_capacity};
ghost use Rattle.std.specs.List.{prefix_len};
ghost use Rattle.czi_format.specs.Space.{with_next};
ghost use Rattle.czi_num.specs.Span.{span_of};
ghost use Rattle.czi_space.specs.State.{AreExtents, IsInOrder, some_of, ends_by, comes_before};

use czi_num::Span;

/// How many of the extents end at or below a place. They rise, so it is found by binary search.
pub fn ending_by(extents: &[Span], place: u64) -> usize
    requires { (to : ℕ) × AreExtents 0 to (map span_of extents.now) }
    ensures count { result ≡ prefix_len (ends_by place) (map span_of extents.now) }
    ensures inside { result ≤ length extents.now }
{
    extents.partition_point(|extent| extent.at + extent.len <= place)
}

/// How many of the held spans come before one. They are in order, so it is found by binary search.
pub fn coming_before(held: &[Span], span: &Span) -> usize
    requires { IsInOrder (map span_of held.now) }
    ensures count { result ≡ prefix_len (comes_before (span_of span.now)) (map span_of held.now) }
    ensures inside { result ≤ length held.now }
{
    held.partition_point(|other| is_before(other, span))
}

/// Whether a span comes before another one: by place, then by length.
fn is_before(other: &Span, span: &Span) -> bool
    ensures { result ≡ comes_before (span_of span.now) (span_of other.now) }
{
    other.at < span.at || (other.at == span.at && other.len < span.len)
}

/// Replaces an extent by those of two spans that aren't empty.
pub fn replace(extents: &mut Vec<Span>, i: usize, before: Span, behind: Span)
    requires inside { i < vec_len extents.old }
    requires spare { vec_len extents.old < vec_capacity extents.old }
    ensures items { map span_of extents.new.items ≡ take i (map span_of extents.old.items) ++ (some_of (span_of before) ++ (some_of (span_of behind) ++ drop (i + 1) (map span_of extents.old.items))) }
    ensures capacity { vec_capacity extents.new ≡ vec_capacity extents.old }
    ensures one_more { vec_len extents.new ≤ vec_len extents.old + 1 }
{
    match (before.len > 0, behind.len > 0) {
        (true, true) => {
            extents[i] = before;
            let _ = extents.insert(i + 1, behind);
        }
        (true, false) => extents[i] = before,
        (false, true) => extents[i] = behind,
        (false, false) => {
            let _ = extents.remove(i);
        }
    }
}

/// Puts a span before an extent, joined with it where it ends there.
pub fn put_before(extents: &mut Vec<Span>, i: usize, span: Span)
    requires inside { i ≤ vec_len extents.old }
    requires spare { vec_len extents.old < vec_capacity extents.old }
    ensures items { map span_of extents.new.items ≡ take i (map span_of extents.old.items) ++ with_next (span_of span) (drop i (map span_of extents.old.items)) }
    ensures capacity { vec_capacity extents.new ≡ vec_capacity extents.old }
    ensures one_more { vec_len extents.new ≤ vec_len extents.old + 1 }
{
    if i < extents.len() && extents[i].at == span.at + span.len {
        let len = span.len + extents[i].len;
        extents[i] = Span { at: span.at, len };
    } else {
        let _ = extents.insert(i, span);
    }
}

/// Replaces an extent by a span, joined with the next extent where it ends there.
pub fn put_over(extents: &mut Vec<Span>, i: usize, span: Span)
    requires { i < vec_len extents.old }
    ensures items { map span_of extents.new.items ≡ take i (map span_of extents.old.items) ++ with_next (span_of span) (drop (i + 1) (map span_of extents.old.items)) }
    ensures capacity { vec_capacity extents.new ≡ vec_capacity extents.old }
    ensures no_more { vec_len extents.new ≤ vec_len extents.old }
{
    let next = i + 1;
    if next < extents.len() && extents[next].at == span.at + span.len {
        let len = span.len + extents[next].len;
        extents[i] = Span { at: span.at, len };
        let _ = extents.remove(next);
    } else {
        extents[i] = span;
    }
}
