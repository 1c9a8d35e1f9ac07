ghost use Rattle.std.specs.Prelude.{◌≡◌, ℕ, ◌+◌, ◌%◌, ◌^◌, ◌<◌, ◌≤◌, IsTrue, ◌↔◌};
ghost use Rattle.czi_format.specs.Span.{meets, round32};
ghost use Rattle.czi_num.specs.Span.{LiesIn, span_of};

use crate::span::Span;

/// Whether some place lies in both spans.
pub fn meets(a: &Span, b: &Span) -> bool
    ensures shared { IsTrue result ↔ ((place : ℕ) × LiesIn place (span_of a.now) × LiesIn place (span_of b.now)) }
    ensures value { result ≡ meets (span_of a.now) (span_of b.now) }
{
    a.at.max(b.at) < (a.at + a.len).min(b.at + b.len)
}

/// A number of bytes rounded up to a multiple of 32, at which segments are placed.
pub fn round32(n: u64) -> u64
    requires { n ≤ 2 ^ 62 }
    ensures value { result ≡ round32 n }
    ensures multiple { result % 32 ≡ 0 }
    ensures reaches { n ≤ result }
    ensures near { result < n + 32 }
{
    (n + 31) / 32 * 32
}
