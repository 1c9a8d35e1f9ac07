//! What an inverse holds back.

ghost use Rattle.std.specs.Prelude.{◌≡◌, ◌∷◌, [], option_map, IfOk};
ghost use Rattle.czi_undo.specs.Holding.{held_of_part, holds_of, usable_span};

use crate::held::HeldSegment;
use crate::inverse::{Inverse, Part};
use czi_num::Span;
use std::alloc::{AllocError, Global};

impl HeldSegment {
    /// The extent, where it can be used again: the walk stood on it, and it begins and ends at multiples of 32.
    pub fn usable(&self) -> Option<Span>
        ensures { result ≡ usable_span self.now }
    {
        if self.walked && self.span.at % 32 == 0 && self.span.len % 32 == 0 {
            Some(self.span)
        } else {
            None
        }
    }
}

impl Part {
    /// The segment that it brings back, if it brings one.
    pub fn held(&self) -> Option<&HeldSegment>
        ensures { option_map (λ r. r.now) result ≡ held_of_part self.now }
    {
        match self {
            Part::PutSub { held, .. } | Part::InsertSub { held, .. } => Some(held),
            Part::PutAtt { held, .. } | Part::InsertAtt { held, .. } => Some(held),
            Part::PutMeta { held } => Some(held),
            _ => None,
        }
    }
}

impl Inverse {
    /// The inverse of a single edit.
    pub fn single(alloc: Global, part: Part) -> Result<Inverse, AllocError>
        ensures { IfOk result (λ i. (i.parts.items ≡ part ∷ []) × (i.edits ≡ 1)) }
    {
        let mut parts = Vec::with_capacity(alloc, 1)?;
        parts.push(part)?;
        Ok(Inverse { parts, edits: 1 })
    }

    /// The span that the inverse of a single edit holds back: that of the segment that it brings back, where it can be used
    /// again.
    pub fn holds(&self) -> Option<Span>
        ensures { result ≡ holds_of self.now }
    {
        self.parts.first()?.held()?.usable()
    }
}
