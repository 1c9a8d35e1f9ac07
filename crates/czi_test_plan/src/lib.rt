//! Tests of plans: what they write, use, free and hold, and which bytes of a directory they change.
//!
//! They stand here, above `czi_plan`, so that it is proved once.
#![tactic(auto)]

#[cfg(test)]
mod attachments;
#[cfg(test)]
mod bringing;
#[cfg(test)]
mod documents;
#[cfg(test)]
mod metadata;
#[cfg(test)]
mod plans;
#[cfg(test)]
mod removing;
#[cfg(test)]
mod undoing;
