//! Worked cases of the crates below lines, as texts that a few helpers read, with ample memory. Nothing stands on this crate.
#![tactic(auto)]

#[cfg(test)]
mod bytes;
#[cfg(test)]
mod case;
#[cfg(test)]
mod copies;
#[cfg(test)]
mod files;
#[cfg(test)]
mod halves;
#[cfg(test)]
mod numbers;
#[cfg(test)]
mod outside;
#[cfg(test)]
mod sets;
#[cfg(test)]
mod stores;
#[cfg(test)]
mod texts;
