//! Names that hide others.
ghost use Rattle.std.specs.Prelude.{◌≡◌, ◌&&◌, ℕ, List, IfOk};
ghost use Rattle.type_demands.specs.Scopes.{all_differ, bind, meaning_in, nothing_known};
ghost use Rattle.type_names.specs.Looking.{IsFramed};
ghost use Rattle.type_names.specs.Names.{is_among};

use sqlite_items::Items;
use std::alloc::{AllocError, Global};
use std::collections::HashMap;
use type_demands::{Frame, Opened, put_name};

/// A list of names in which one is found by one look, and whether they differ.
#[derive(Drop)]
pub struct Hiding {
    pub names: Items<Items<u8>>,
    pub differ: bool,
    pub frame: Frame,
}

fn both(first: bool, second: bool) -> bool
    ensures { result ≡ (first && second) }
{
    if first { second } else { false }
}

#[tactic(auto, using(type_demands::proofs::Frames::opening_none))]
fn frame_of(alloc: Global, names: &[Items<u8>]) -> Result<Opened, AllocError>
    ensures frame { IfOk result (λ opened. (x : List ℕ) → meaning_in opened.frame.meanings x ≡ bind names.now 0 nothing_known x) }
    ensures differ { IfOk result (λ opened. opened.differ ≡ all_differ names.now) }
{
    let mut meanings = HashMap::with_capacity(alloc, names.len())?;
    let mut differ = true;
    let mut i = names.len();
    while i > 0 {
        i -= 1;
        let fresh = put_name(&mut meanings, alloc, names[i].as_slice(), i)?;
        differ = both(fresh, differ);
    }
    Ok(Opened {
        frame: Frame { meanings },
        differ,
    })
}

impl Hiding {
    pub fn of(alloc: Global, names: Items<Items<u8>>) -> Result<Hiding, AllocError>
        ensures list { IfOk result (λ h. h.names ≡ names) }
        ensures differ { IfOk result (λ h. h.differ ≡ all_differ names) }
        ensures framed { IfOk result IsFramed }
    {
        let opened = frame_of(alloc, names.as_slice())?;
        Ok(Hiding {
            names,
            differ: opened.differ,
            frame: opened.frame,
        })
    }

    /// Whether a name is one of them.
    pub fn has(&self, name: &[u8]) -> bool
        requires { IsFramed self.now }
        ensures { result ≡ is_among self.now.names name.now }
    {
        self.frame.has(name)
    }
}
