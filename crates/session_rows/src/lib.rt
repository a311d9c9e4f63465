//! Tables of lines and the commands that they stand for.
#![tactic(auto)]

#[cfg(test)]
mod tests;
