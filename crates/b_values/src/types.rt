use sqlite_items::{Boxed, Items};

/// The type of a value.
#[derive(Drop)]
pub enum Ty {
    Int,
    Truth,
    Text,
    /// A set of the machine, by its place from 0.
    Elem(u32),
    Pair(Boxed<Ty>, Boxed<Ty>),
    Set(Boxed<Ty>),
}

/// The values of the preferences, each in its range (`are_in_range`).
#[derive(Clone, Copy, Debug, PartialEq, Eq)]
pub struct Prefs {
    pub minint: i128,
    pub maxint: i128,
    pub max_operations: u64,
    pub max_initialisations: u64,
    pub default_setsize: u64,
    pub cache_steps: u64,
    pub cache_values: u64,
}

/// A set of the machine and the names of its elements, in order of position.
#[derive(Drop)]
pub struct SetFace {
    pub name: Items<u8>,
    pub elements: Items<Items<u8>>,
}

/// A name with its type.
#[derive(Drop)]
pub struct NameFace {
    pub name: Items<u8>,
    pub ty: Ty,
}

/// An operation with its parameters and results, in text order.
#[derive(Drop)]
pub struct OpFace {
    pub name: Items<u8>,
    pub params: Items<NameFace>,
    pub results: Items<NameFace>,
}

/// What a machine shows: its sets, names, operations and preferences.
#[derive(Drop)]
pub struct Face {
    pub name: Items<u8>,
    pub sets: Items<SetFace>,
    pub constants: Items<NameFace>,
    pub variables: Items<NameFace>,
    pub ops: Items<OpFace>,
    pub prefs: Prefs,
}

/// What may be asked of a state: the constants, the initialisation or an operation by its number in text order.
#[derive(Clone, Copy, Debug, PartialEq, Eq)]
pub enum OpId {
    Setup,
    Init,
    Op(u32),
}
