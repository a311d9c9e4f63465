use std::collections::LinkedList;

/// Where a pass stands. No value of it is made.
pub enum Stage {
    Idle,
    Waiting(u64),
    Holding(u64),
}

/// What the table knows of a pass. No value of it is made.
pub struct View<Entry, Tag> {
    pub shares: u64,
    pub own: u64,
    pub seen: LinkedList<Entry>,
    pub stage: Stage,
    pub tag: Option<Tag>,
    /// What a pass that was joined had seen, until the next step.
    pub heard: LinkedList<Entry>,
}
