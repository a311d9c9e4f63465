//! Whole runs of the host over the forms in memory: worked rows, faults at each call, limits, and texts that are nearly
//! words, machines or commands.
#![tactic(auto)]

#[cfg(test)]
mod tests;
