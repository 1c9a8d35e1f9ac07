//! The list of what undoes the last commands.

use crate::inverse::Inverse;
use std::alloc::{AllocError, Global};
use std::collections::VecDeque;
use std::marker::Model;

/// How many inverses are kept at most.
const MOST_INVERSES: usize = 32;

/// How many edits they take back at most.
const MOST_EDITS: u64 = 128;

/// What undoes the last commands, newest first: at most 32 inverses, which take back at most 128 edits, and for a moment one
/// more, until the oldest are taken off. Only `new` takes memory.
#[derive(Drop)]
pub struct UndoList {
    inverses: VecDeque<Inverse>,
}

impl Model for UndoList {
    ghost use Rattle.std.specs.Prelude.{List, ◌≤◌, length};
    ghost use Rattle.std.specs.VecDeque.{deque_capacity};
    ghost use Rattle.czi_undo.specs.declared.inverse.Inverse.{Inverse as Undone};

    ghost Value = { List Undone };

    ghost view = { λ l. l.inverses.items };

    ghost invariant = { λ l. (33 ≤ deque_capacity l.inverses) × (length l.inverses.items ≤ 33) };
}

impl UndoList {
    ghost use Rattle.std.specs.Prelude.{◌≡◌, ◌∷◌, ◌++◌, [], drop, false, length, option_map, option_to_list, IfOk};
    ghost use Rattle.std.specs.Option.{is_some};
    ghost use Rattle.czi_undo.specs.Bounds.{counts_of, first_of, passes};

    /// An empty list, with room for 33 inverses.
    pub fn new(alloc: Global) -> Result<UndoList, AllocError>
        ensures { IfOk result (λ list. list ≡ []) }
    {
        let inverses = VecDeque::with_capacity(alloc, MOST_INVERSES + 1)?;
        Ok(UndoList { inverses })
    }

    /// Puts an inverse in front. It takes no memory.
    pub fn push_reserved(&mut self, inverse: Inverse)
        requires within { passes (counts_of self.old) ≡ false }
        ensures { self.new ≡ inverse ∷ self.old }
    {
        let _ = self.inverses.push_front(inverse);
    }

    /// Takes the oldest inverse off, exactly where there are more than 32, or they take back more than 128 edits. It takes
    /// no memory.
    pub fn over(&mut self) -> Option<Inverse>
        ensures exactly { is_some result ≡ passes (counts_of self.old) }
        ensures oldest { self.old ≡ self.new ++ option_to_list result }
    {
        let edits: u64 = self
            .inverses
            .iter()
            .map(|inverse| inverse.edits as u64)
            .sum();
        if self.inverses.len() > MOST_INVERSES || edits > MOST_EDITS {
            self.inverses.pop_back()
        } else {
            None
        }
    }

    /// Takes the newest inverse off, if there is one.
    pub fn pop(&mut self) -> Option<Inverse>
        ensures newest { result ≡ first_of self.old }
        ensures others { self.new ≡ drop 1 self.old }
    {
        self.inverses.pop_front()
    }

    /// Lends the newest inverse, if there is one.
    pub fn newest(&self) -> Option<&Inverse>
        ensures { option_map (λ r. r.now) result ≡ first_of self.now }
    {
        self.inverses.front()
    }

    /// Takes all inverses off.
    pub fn clear(&mut self)
        ensures { self.new ≡ [] }
    {
        self.inverses.clear();
    }

    /// How many inverses there are.
    pub fn len(&self) -> usize
        ensures { result ≡ length self.now }
    {
        self.inverses.len()
    }
}
