//! The map of free space.

use crate::fitting::{grown, lowest, past, push_runs};
use crate::lists::{coming_before, ending_by, put_before, put_over, replace};
use crate::place::Place;
use czi_num::Span;
use std::alloc::{AllocError, Global};
use std::marker::Model;

/// The free space of an image: its DELETED extents, the spans that are held back, and the committed length,
/// all in bytes. A free run is a maximal part of one extent that meets no held span. With n extents and h held
/// spans, a call that changes one of them finds its place by binary search and moves the later ones.
#[derive(Drop)]
pub struct Map {
    extents: Vec<Span>,
    held: Vec<Span>,
    image_length: u64,
    alloc: Global,
}

impl Model for Map {
    ghost use Rattle.std.specs.Prelude.{map, ◌-◌, min, vec_len, vec_capacity};
    ghost use Rattle.czi_num.specs.Span.{span_of};
    ghost use Rattle.czi_space.specs.State.{MapState, IsMap};

    ghost Value = { MapState };

    ghost view = { λ m. record { extents = map span_of m.extents.items; held = map span_of m.held.items; length = m.image_length; spare = min (vec_capacity m.extents - vec_len m.extents) (vec_capacity m.held - vec_len m.held) } };

    ghost invariant = { λ m. IsMap (map span_of m.extents.items) (map span_of m.held.items) m.image_length };
}

impl Map {
    ghost use Rattle.std.specs.Prelude.{◌≡◌, ◌+◌, ◌≤◌, ◌++◌, ◌∷◌, [], length, map, OnOk, OnErr, IfOk, IsTrue};
    ghost use Rattle.czi_format.specs.Span.{end_of, is_aligned, IsWhole, LiesInOne};
    ghost use Rattle.czi_format.specs.Space.{without, place_for, use_all, with_freed, with_held, released, cut_to, free_runs};
    ghost use Rattle.czi_num.specs.Span.{span_of};
    ghost use Rattle.czi_space.specs.State.{AreExtents, Has, space_of, MeetsNone, IsHeld, place_of};

    /// A map of these extents, which are aligned, rising and disjoint and end at or below the length. No span
    /// is held. It takes no memory.
    pub fn of_runs(alloc: Global, extents: Vec<Span>, length: u64) -> Map
        requires { AreExtents 0 length (map span_of extents.items) }
        ensures { Has result (map span_of extents.items) [] length }
    {
        Map {
            extents,
            held: Vec::new(alloc),
            image_length: length,
            alloc,
        }
    }

    /// Takes all extents and all held spans out, and sets the length. The memory stays.
    pub fn clear(&mut self, length: u64)
        ensures map { Has self.new [] [] length }
        ensures spare { self.old.spare ≤ self.new.spare }
    {
        self.extents.clear();
        self.held.clear();
        self.image_length = length;
    }

    /// Puts an extent behind all others.
    pub fn push(&mut self, extent: &Span)
        requires spare { 1 ≤ self.old.spare }
        requires whole { IsWhole (span_of extent.now) }
        requires behind { AreExtents 0 extent.now.at self.old.extents }
        requires inside { end_of (span_of extent.now) ≤ self.old.length }
        ensures map { Has self.new (self.old.extents ++ span_of extent.now ∷ []) self.old.held self.old.length }
        ensures spare { self.old.spare ≤ self.new.spare + 1 }
    {
        let _ = self.extents.push(*extent);
    }

    /// Where a need goes: to the front of the lowest free run that is as long, and else to the length rounded up
    /// to 32, unless it would end past 2^40 there. It looks at the extents in turn.
    pub fn first_fit(&self, need: u64) -> Place
        ensures { place_of result ≡ place_for (space_of self.now) need }
    {
        self.first_fit_after(need, &[])
    }

    /// What `first_fit` would answer once these spans were used, and the length was set to the end of each that
    /// passes it.
    pub fn first_fit_after(&self, need: u64, taken: &[Span]) -> Place
        ensures { place_of result ≡ place_for (use_all (space_of self.now) (map span_of taken.now)) need }
    {
        for extent in &self.extents {
            if let Some(at) = lowest(extent, &self.held, taken, need) {
                return Place::At(at);
            }
        }
        past(grown(self.image_length, taken), need)
    }

    /// Sets the length, which doesn't fall.
    pub fn set_length(&mut self, length: u64)
        requires { self.old.length ≤ length }
        ensures map { Has self.new self.old.extents self.old.held length }
        ensures spare { self.new.spare ≡ self.old.spare }
    {
        self.image_length = length;
    }

    /// Takes a span out of the extent in which it lies. What is left before and behind it stays.
    pub fn take(&mut self, span: &Span)
        requires spare { 2 ≤ self.old.spare }
        requires whole { IsWhole (span_of span.now) }
        requires inside { LiesInOne (span_of span.now) self.old.extents }
        ensures map { Has self.new (without (span_of span.now ∷ []) self.old.extents) self.old.held self.old.length }
        ensures one_more { length self.new.extents ≤ length self.old.extents + 1 }
        ensures spare { self.old.spare ≤ self.new.spare + 2 }
    {
        let i = ending_by(&self.extents, span.at);
        let extent = self.extents[i];
        let from = span.at + span.len;
        let before = Span {
            at: extent.at,
            len: span.at - extent.at,
        };
        let behind = Span {
            at: from,
            len: extent.at + extent.len - from,
        };
        replace(&mut self.extents, i, before, behind);
    }

    /// Frees a span: it is joined with the extent that ends where it begins and with the one that begins where
    /// it ends.
    pub fn free(&mut self, span: &Span)
        requires spare { 2 ≤ self.old.spare }
        requires whole { IsWhole (span_of span.now) }
        requires apart { MeetsNone (span_of span.now) self.old.extents }
        requires inside { end_of (span_of span.now) ≤ self.old.length }
        ensures map { Has self.new (with_freed (span_of span.now) self.old.extents) self.old.held self.old.length }
        ensures one_more { length self.new.extents ≤ length self.old.extents + 1 }
        ensures spare { self.old.spare ≤ self.new.spare + 2 }
    {
        let i = ending_by(&self.extents, span.at);
        if i > 0 {
            let last = self.extents[i - 1];
            if last.at + last.len == span.at {
                let joined = Span {
                    at: last.at,
                    len: last.len + span.len,
                };
                put_over(&mut self.extents, i - 1, joined);
                return;
            }
        }
        put_before(&mut self.extents, i, *span);
    }

    /// Holds a span back: no free run meets it from now on.
    pub fn hold(&mut self, span: &Span)
        requires { 1 ≤ self.old.spare }
        ensures map { Has self.new self.old.extents (with_held (span_of span.now) self.old.held) self.old.length }
        ensures spare { self.old.spare ≤ self.new.spare + 1 }
    {
        let i = coming_before(&self.held, span);
        let _ = self.held.insert(i, *span);
    }

    /// Holds a span back no more. Of a span that is held more than once, one stays held less.
    pub fn unhold(&mut self, span: &Span)
        requires { IsHeld (span_of span.now) self.old.held }
        ensures map { Has self.new self.old.extents (released (span_of span.now) self.old.held) self.old.length }
        ensures spare { self.old.spare ≤ self.new.spare }
    {
        let i = coming_before(&self.held, span);
        let _ = self.held.remove(i);
    }

    /// Drops the extents that end past a length, which becomes the length.
    pub fn cut(&mut self, length: u64)
        ensures map { Has self.new (cut_to length self.old.extents) self.old.held length }
        ensures spare { self.old.spare ≤ self.new.spare }
    {
        let i = ending_by(&self.extents, length);
        self.extents.truncate(i);
        self.image_length = length;
    }

    /// Makes spare memory for at least `n` more. Where memory runs out the map stays as it was.
    pub fn reserve(&mut self, n: usize) -> Result<(), AllocError>
        ensures map { Has self.new self.old.extents self.old.held self.old.length }
        ensures ok { OnOk result (n ≤ self.new.spare) }
        ensures kept { self.old.spare ≤ self.new.spare }
    {
        self.extents.reserve(n)?;
        self.held.reserve(n)?;
        Ok(())
    }

    /// The free runs in order of place. It goes through the extents and the held spans side by side.
    pub fn runs(&self) -> Result<Vec<Span>, AllocError>
        ensures { IfOk result (λ v. map span_of v.items ≡ free_runs self.now.held self.now.extents) }
    {
        let mut out = Vec::new(self.alloc);
        push_runs(&self.extents, &self.held, &mut out)?;
        Ok(out)
    }

    /// The DELETED extents in order of place.
    pub fn extents(&self) -> &[Span]
        ensures extents { map span_of result.now ≡ self.now.extents }
        ensures rising { AreExtents 0 self.now.length self.now.extents }
    {
        self.extents.as_slice()
    }

    /// The held spans in order of place.
    pub fn held(&self) -> &[Span]
        ensures { map span_of result.now ≡ self.now.held }
    {
        self.held.as_slice()
    }

    /// The committed length.
    pub fn length(&self) -> u64
        ensures { result ≡ self.now.length }
    {
        self.image_length
    }
}
