// Keys whose hashes are equal, though the keys aren't: found by a search, since the hash of the kit's tables has no secret.
use std::hash::{FoldHasher, Hash, Hasher};

/// Two states' bytes with one hash.
pub const FIRST: [u8; 8] = [149, 154, 213, 128, 29, 16, 26, 51];

pub const SECOND: [u8; 8] = [195, 66, 157, 3, 87, 183, 42, 209];

/// Two formulas' texts which, behind either of these states, have one hash.
pub const TEXT: [u8; 8] = [22, 241, 229, 42, 251, 40, 116, 193];

pub const OTHER_TEXT: [u8; 8] = [181, 86, 191, 178, 142, 4, 132, 64];

/// The hash by which a table finds a key.
pub fn hash_of<T: Hash>(key: &T) -> u64 {
    let mut hasher = FoldHasher::default();
    key.hash(&mut hasher);
    hasher.finish()
}
