//! What the built program can't show of trees: which are kept, how many operations they are folded from, and shared ones.
#![tactic(auto)]

#[cfg(test)]
mod tests;
