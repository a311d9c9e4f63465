use crate::rules::Reading;

/// A form of a text: what it is, and which parts are its left and right operand and its whole.
#[derive(Clone, Copy, Debug, PartialEq, Eq)]
pub struct Form {
    pub reading: Reading,
    pub left: usize,
    pub right: usize,
    pub whole: usize,
}
