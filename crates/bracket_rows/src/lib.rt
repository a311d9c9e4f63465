//! Texts with many brackets open at one place, read in a thread with a stack of 2 MB.
#![tactic(auto)]

#[cfg(test)]
mod tests;
