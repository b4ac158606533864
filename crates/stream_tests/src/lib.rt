//! Calls on streams that no run of the program shows: streams that come in pieces, texts that go out in pieces, and calls that
//! no crate makes.
#![tactic(auto)]

#[cfg(test)]
mod fields;
#[cfg(test)]
mod pieces;
#[cfg(test)]
mod writing;
