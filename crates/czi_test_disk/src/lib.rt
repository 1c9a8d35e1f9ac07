//! The tests of the crates that reach a device: `czi_rig`, `czi_journal`, `czi_vault`, `czi_opening` and `czi_commit`, one
//! module each. They stand above these crates, which are so proved once.
#![tactic(auto)]

#[cfg(test)]
mod commit;
#[cfg(test)]
mod creation;
#[cfg(test)]
mod files;
#[cfg(test)]
mod journal;
#[cfg(test)]
mod opening;
#[cfg(test)]
mod rig;
#[cfg(test)]
mod vault;
