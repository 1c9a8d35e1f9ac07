//! Lists of spans: in order, the first neighbours that meet, and search by halves.
//!
//! With n spans, sorting and n searches take n log n steps.
#![tactic(auto)]

mod order;
mod search;

pub use order::{first_meeting, sort_items, sort_spans};
pub use search::{find_place, has_place, meets_any};
