//! Canonical texts, read and printed again: each operator beside each other, and every form.
#![tactic(auto)]

#[cfg(test)]
mod tests;
