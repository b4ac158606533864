//! What the built program can't show of the event graph: slots and ids, and calls that no command reaches.
#![tactic(auto)]

#[cfg(test)]
mod tests;
