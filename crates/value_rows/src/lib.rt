//! Tables of values: their order, their size, what is kept of a state, and their texts.
#![tactic(auto)]

#[cfg(test)]
mod texts;
#[cfg(test)]
mod values;
