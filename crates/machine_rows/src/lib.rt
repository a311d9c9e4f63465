//! Tables of machines: what their texts read as, what is left out, and which clauses stand twice or are missing.
#![tactic(auto)]

#[cfg(test)]
mod readings;
#[cfg(test)]
mod rules;
#[cfg(test)]
mod substitutions;
