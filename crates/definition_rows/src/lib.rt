//! Formulas with definitions: what they stand for, and wrong uses.
#![tactic(auto)]

#[cfg(test)]
mod rows;
#[cfg(test)]
mod tables;
#[cfg(test)]
mod tests;
