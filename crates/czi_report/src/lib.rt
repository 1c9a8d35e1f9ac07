//! The texts of a run: `list` and `info` (what an index has, a line each), `map` (where space is free or held back), `check` (how
//! much of an image is what), the replies to edits, a region as a PNM file, and why an image isn't opened. Their pieces are in
//! `text`.
//!
//! Each call but `pnm_row` appends its text to a buffer. Where memory runs out `list`, `info`, `map`, `check` and `pnm_head` leave
//! the buffer as it was, and the others may have appended a front of their line.
#![tactic(auto)]

mod counts;
mod details;
mod laws;
mod listing;
mod pnm;
mod refusal;
mod reply;
mod space;
pub mod text;

pub use counts::check;
pub use details::info;
pub use laws::texts_of_a_state;
pub use listing::list;
pub use pnm::{pnm_head, pnm_row};
pub use refusal::{push_cause, push_not_empty};
pub use reply::{
    push_no_duplicate, push_no_full, push_no_key, push_no_long, push_no_many, push_no_nothing,
    push_ok,
};
pub use space::map;
