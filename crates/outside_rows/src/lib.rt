//! The forms in memory of sources, sinks, cabinets and openers, each called in turn over tables of calls.
#![tactic(auto)]

#[cfg(test)]
mod forms;
