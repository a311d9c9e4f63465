//! Tables of formulas: the trees of texts, and texts that have none.
#![tactic(auto)]

#[cfg(test)]
mod trees;
