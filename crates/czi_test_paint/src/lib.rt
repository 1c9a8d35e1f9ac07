//! The tests of the crates that paint regions: planes and queries of `czi_doc`, `czi_tiles`, `czi_paint`, and the PNM files of
//! `czi_report`. They stand above these crates, which are so proved once.
#![tactic(auto)]

#[cfg(test)]
mod asked;
#[cfg(test)]
mod planes;
#[cfg(test)]
mod refusals;
#[cfg(test)]
mod regions;
#[cfg(test)]
mod rows;
#[cfg(test)]
mod selecting;
