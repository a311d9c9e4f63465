//! Machines with definitions: what they stand for, wrong uses, and the order of refusals.
#![tactic(auto)]

#[cfg(test)]
mod tests;
