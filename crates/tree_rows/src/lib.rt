//! Trees made by hand, and what they are printed as.
#![tactic(auto)]

#[cfg(test)]
mod trees;
