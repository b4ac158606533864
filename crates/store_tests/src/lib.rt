//! What the built program can't show of what is outside: calls that fail where they are chosen to.
#![tactic(auto)]

#[cfg(test)]
mod patterns;
#[cfg(test)]
mod runs;
#[cfg(test)]
mod stores;
