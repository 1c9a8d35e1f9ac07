//! Numbers and bytes at places of a byte list, and spans of places.
//!
//! All numbers in a CZI (ZISRAW) file are little-endian.
#![tactic(auto)]

mod fields;
mod meeting;
mod span;

pub use fields::{
    read_bytes, read_i32, read_i64, read_u16, read_u32, read_u64, write_bytes, write_i32,
    write_i64, write_u16, write_u32, write_u64,
};
pub use meeting::{meets, round32};
pub use span::Span;
