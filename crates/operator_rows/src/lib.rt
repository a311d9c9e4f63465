//! Tables of what the operators answer: on numbers, sets, relations, sequences and sets of functions.
#![tactic(auto)]

#[cfg(test)]
mod arithmetic;
#[cfg(test)]
mod expressions;
#[cfg(test)]
mod families;
#[cfg(test)]
mod making;
#[cfg(test)]
mod related;
#[cfg(test)]
mod sequences;
#[cfg(test)]
mod sets;
