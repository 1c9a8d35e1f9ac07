//! The steps of one command over a device, all memory for which was taken before.
//!
//! The journal is armed where it isn't, the new bytes of a plan are written to places that nothing needs yet, the
//! image is synced, and the plan's links and length are committed. A crash at any moment leaves files that stand
//! for what they stood for, or for the image that the command makes.
#![tactic(auto)]

mod filling;
mod steps;

pub use steps::carry_out;
