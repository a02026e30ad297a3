//! Worked examples of the library crates, each a test of something that only a library call shows. What the whole
//! program shows by words, files, statuses and texts is a case of ghost_rows. No crate depends on this one.
#![tactic(auto)]

#[cfg(test)]
mod bank_rows;
#[cfg(test)]
mod bus_rows;
#[cfg(test)]
mod checker_rows;
#[cfg(test)]
mod fixtures;
#[cfg(test)]
mod machine_rows;
#[cfg(test)]
mod outside_rows;
#[cfg(test)]
mod patterns_rows;
#[cfg(test)]
mod source_rows;
#[cfg(test)]
mod trace_text_rows;
#[cfg(test)]
mod tree_rows;
#[cfg(test)]
mod watch_rows;
