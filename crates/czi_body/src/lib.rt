//! Subblock data and metadata data in the ZISRAW format: the fronts that are read, and the data of new
//! segments.
#![tactic(auto)]

mod fronts;
mod places;
mod staging;

pub use fronts::{MetaHead, SubHead, read_meta_head, read_sub_head};
pub use staging::{meta_size, stage_meta, stage_sub, sub_size};
