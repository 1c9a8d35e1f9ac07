//! The tests of the crates that read an image or a script, and say what they found: `czi_walk`, `czi_image`, `czi_report` and
//! `czi_script`. They stand above these crates, which are so proved once.
#![tactic(auto)]

#[cfg(test)]
mod attachment_scripts;
#[cfg(test)]
mod documents;
#[cfg(test)]
mod indexes;
#[cfg(test)]
mod refusals;
#[cfg(test)]
mod reports;
#[cfg(test)]
mod scripts;
#[cfg(test)]
mod walks;
