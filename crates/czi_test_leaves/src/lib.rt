//! Tests of the crates that stand at the bottom: numbers, segments, items, entries, links, free space, spans.
//!
//! They stand here, above all of them, so that each of those libraries is proved once.
#![tactic(auto)]

#[cfg(test)]
mod attachments;
#[cfg(test)]
mod bodies;
#[cfg(test)]
mod edits;
#[cfg(test)]
mod entries;
#[cfg(test)]
mod free_space;
#[cfg(test)]
mod items;
#[cfg(test)]
mod links;
#[cfg(test)]
mod numbers;
#[cfg(test)]
mod regions;
#[cfg(test)]
mod samples;
#[cfg(test)]
mod segments;
#[cfg(test)]
mod spans;
#[cfg(test)]
mod staged;
#[cfg(test)]
mod undo_list;
