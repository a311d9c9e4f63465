//! The operators on sets, relations and sequences under one name, and laws between them.
#![tactic(auto)]

mod laws;

pub use b_relations::{
    apply, closure, closure1, compose, converse, direct, dom, dom_restrict, dom_subtract, identity,
    image, iterate, overwrite, parallel, prj1, prj2, ran, ran_restrict, ran_subtract,
};
pub use b_sequences::{
    append, conc, concat, drop_first, first, front, is_sequence, last, prepend, rev, size, tail,
    take,
};
pub use b_sets::{
    big_inter, big_union, card, difference, intersect, interval, max, min, times, union,
};
pub use laws::{difference_of_union, domain_of_converse, reverse_of_reverse, size_of_join};
pub use set_making::OpFault;
