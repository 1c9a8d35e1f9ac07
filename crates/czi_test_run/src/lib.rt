//! Tests of the crates that run commands on an image: the engine, the session and the top call.
//!
//! They stand here, above these crates, so that each of those libraries is proved once.
#![tactic(auto)]

#[cfg(test)]
mod adding;
#[cfg(test)]
mod attaching;
#[cfg(test)]
mod calls;
#[cfg(test)]
mod counter;
#[cfg(test)]
mod creating;
#[cfg(test)]
mod devices;
#[cfg(test)]
mod engine;
#[cfg(test)]
mod images;
#[cfg(test)]
mod large;
#[cfg(test)]
mod outcomes;
#[cfg(test)]
mod regions;
#[cfg(test)]
mod scripts;
#[cfg(test)]
mod session;
#[cfg(test)]
mod top;
#[cfg(test)]
mod wide;
