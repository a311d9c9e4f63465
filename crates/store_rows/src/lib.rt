//! Tables of what the list of names and the bounded stores answer, call by call.
#![tactic(auto)]

#[cfg(test)]
mod hashes;
#[cfg(test)]
mod names;
#[cfg(test)]
mod scripts;
#[cfg(test)]
mod steps;
#[cfg(test)]
mod threads;
#[cfg(test)]
mod values;
