//! Tests of what no file can show: a source, a sink and files in memory that fail at one call or another, or take a part, and readers
//! that ask for a proof of what they read. What a call of the built compiler answers where its files and streams fail is told by
//! `tests/outside`; all else that is only tested is data, which op_measure and the scripts of `tests/` read.
#![tactic(auto)]

#[cfg(test)]
mod descriptors;
#[cfg(test)]
mod streams;
