//! Choices that follow from a seed: the words of the generator Pcg32, taken one after another.
#![tactic(auto)]

mod walk;

pub use walk::Walk;

#[cfg(test)]
mod tests;
