//! Tables of formulas and what they are worth: each form, its faults and their places, membership by form, the ranges of
//! bound names, the limit of tuples, and trees with many brackets in one another.
#![tactic(auto)]

#[cfg(test)]
mod answers;
#[cfg(test)]
mod binders;
#[cfg(test)]
mod brackets;
#[cfg(test)]
mod expressions;
#[cfg(test)]
mod limits;
#[cfg(test)]
mod memberships;
#[cfg(test)]
mod predicates;
#[cfg(test)]
mod tuples;
