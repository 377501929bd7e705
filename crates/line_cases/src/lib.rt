//! Worked cases of the crates of lines, with ample memory, by calls of these crates alone. Nothing stands on this crate.
#![tactic(auto)]

#[cfg(test)]
mod case;
#[cfg(test)]
mod orders;
#[cfg(test)]
mod plain_changes;
#[cfg(test)]
mod plain_cycles;
#[cfg(test)]
mod plain_finds;
#[cfg(test)]
mod plain_lines;
#[cfg(test)]
mod plain_records;
#[cfg(test)]
mod replies;
