//! Search by halves in spans that stand one behind another.

ghost use Rattle.std.specs.Prelude.{◌≡◌, ◌==◌, ◌<◌, map, length, IfSome};
ghost use Rattle.std.specs.List.{list_any, position};
ghost use Rattle.czi_format.specs.Span.{meets};
ghost use Rattle.czi_num.specs.Span.{span_of};
ghost use Rattle.czi_spans.specs.Apart.{AreApart, first_of};

use czi_num::{Span, meets};

/// Whether one of the spans begins at a place.
pub fn has_place(spans: &[Span], at: u64) -> bool
    requires { AreApart 0 (map span_of spans.now) }
    ensures { result ≡ list_any (λ s. s.at == at) (map span_of spans.now) }
{
    let i = spans.partition_point(|span| span.at < at);
    i < spans.len() && spans[i].at == at
}

/// The index of the item whose span begins at a place.
pub fn find_place<T>(items: &[(Span, T)], at: u64) -> Option<usize>
    requires { AreApart 0 (map first_of items.now) }
    ensures position { result ≡ position (λ p. p.0.at == at) items.now }
    ensures inside { IfSome result (λ i. i < length items.now) }
{
    let i = items.partition_point(|item| item.0.at < at);
    if i < items.len() && items[i].0.at == at {
        Some(i)
    } else {
        None
    }
}

/// Whether one of the spans meets this one.
pub fn meets_any(spans: &[Span], span: &Span) -> bool
    requires { AreApart 0 (map span_of spans.now) }
    ensures { result ≡ list_any (meets (span_of span.now)) (map span_of spans.now) }
{
    let i = spans.partition_point(|other| other.at + other.len <= span.at);
    i < spans.len() && meets(span, &spans[i])
}
