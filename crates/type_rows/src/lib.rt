//! Tables of formulas with their types, or with what refuses them.
#![tactic(auto)]

#[cfg(test)]
mod names;
#[cfg(test)]
mod sizes;
#[cfg(test)]
mod tables;
