//! Frames that are gathered.

ghost use Rattle.std.specs.Prelude.{◌≡◌, [], ◌∷◌, ◌++◌, true, Some, None, if◌then◌else◌, OnOk, IfSome};
ghost use Rattle.std.specs.List.{AllByRecursion};
ghost use Rattle.ascending.specs.Ascending.{IsAscending, set_of};
ghost use Rattle.b_outcomes.specs.Frames.{frame_cmp, IsKeptFrame};
ghost use Rattle.b_outcomes.specs.Gathered as spec;
ghost use Rattle.b_outcomes.specs.Gathered.{up_to};

use crate::frames::Frame;
use ascending::make_ascending;
use sqlite_items::Items;
use std::alloc::{AllocError, Global};
use std::marker::Model;

/// The frames that a substitution may leave, as they are found. Contracts see them in order, each once, or that they are
/// more than are told apart. When as many more have come as stayed, doubles go, so that n frames cost some n log n
/// comparisons; where too many are left, none is kept.
#[derive(Drop)]
pub(crate) struct Gathering {
    frames: Vec<Frame>,
    /// How many are told apart at most, if there is a limit.
    most: Option<usize>,
    /// They are more.
    many: bool,
    /// How many are kept before doubles go.
    room: usize,
}

impl Model for Gathering {
    ghost use Rattle.std.specs.Prelude.{None, if◌then◌else◌};
    ghost use Rattle.std.specs.Coded.{coded×, coded_option, coded_ℕ, coded_list};
    ghost use Rattle.std.specs.List.{AllByRecursion};
    ghost use Rattle.ascending.specs.Ascending.{set_of};
    ghost use Rattle.b_outcomes.specs.Frames.{frame_cmp, IsKeptFrame};
    ghost use Rattle.b_outcomes.specs.contracts.frames.Frame as row;
    ghost use Rattle.b_outcomes.specs.Gathered.{Gathered, up_to};

    ghost Value = { Gathered };

    ghost coded = { coded× (coded_option coded_ℕ) (coded_option (coded_list row.the_row.coded)) };

    ghost view = { λ g. (g.most, if g.many then None else up_to g.most (set_of frame_cmp g.frames.items)) };

    ghost invariant = { λ g. AllByRecursion IsKeptFrame g.frames.items };
}

impl Gathering {
    #[tactic(auto, using(crate::proofs::Told::none_passes))]
    pub(crate) fn new(alloc: Global, most: Option<usize>) -> Gathering
        ensures { result ≡ (most, Some []) }
    {
        Gathering {
            frames: Vec::new(alloc),
            most,
            many: false,
            room: ROOM,
        }
    }

    /// Gathers one more.
    #[tactic(auto, using(crate::proofs::Told::add_many))]
    pub(crate) fn add(&mut self, frame: Frame) -> Result<(), AllocError>
        requires { IsKeptFrame frame }
        ensures { OnOk result (self.new ≡ spec.add self.old frame) }
    {
        if self.many {
            return Ok(());
        }
        if self.frames.len() >= self.room {
            self.settle();
        }
        self.push(frame)
    }

    /// They are more than are told apart.
    pub(crate) fn is_over(&self) -> bool
        ensures { result ≡ true → self.now.1 ≡ None }
    {
        self.many
    }

    /// The frames in order, each once, unless they are more than are told apart.
    #[tactic(auto, using(crate::proofs::Told::kept_in_order))]
    pub(crate) fn finish(self) -> Option<Items<Frame>>
        ensures found { result ≡ self.1 }
        ensures ascends { IfSome result (λ fs. IsAscending frame_cmp fs) }
        ensures kept { IfSome result (λ fs. AllByRecursion IsKeptFrame fs) }
    {
        let Gathering {
            frames,
            most,
            many,
            room: _,
        } = self;
        if many { None } else { settled(most, frames) }
    }

    /// Takes out doubles, and all where they are too many.
    #[tactic(auto, using(crate::proofs::Told::kept_in_order, crate::proofs::Told::twice, crate::specs::FrameLaws::frame_same))]
    fn settle(&mut self)
        ensures { self.new ≡ self.old }
    {
        make_ascending(&mut self.frames);
        if passes(self.most, self.frames.len()) {
            self.many = true;
            self.frames.clear();
        }
        self.room = self.frames.len().saturating_mul(2).saturating_add(ROOM);
    }

    #[tactic(auto, using(crate::proofs::Told::with_one_is, crate::proofs::Told::kept_more))]
    fn push(&mut self, frame: Frame) -> Result<(), AllocError>
        requires { IsKeptFrame frame }
        ensures { OnOk result (self.new ≡ spec.add self.old frame) }
    {
        if has_pushed(&mut self.frames, frame) {
            Ok(())
        } else {
            Err(AllocError)
        }
    }
}

/// Whether there was memory for one more, which then stands at the end.
fn has_pushed(frames: &mut Vec<Frame>, frame: Frame) -> bool
    ensures { frames.new.items ≡ (if result then frames.old.items ++ frame ∷ [] else frames.old.items) }
{
    frames.push(frame).is_ok()
}

/// How many frames are kept at first before doubles go.
const ROOM: usize = 1024;

/// So many are more than are told apart.
fn passes(most: Option<usize>, count: usize) -> bool
    ensures { result ≡ spec.passes most count }
{
    match most {
        None => false,
        Some(most) => most < count,
    }
}

#[tactic(auto, using(crate::proofs::Told::kept_in_order, crate::specs::FrameLaws::frame_same))]
fn settled(most: Option<usize>, frames: Vec<Frame>) -> Option<Items<Frame>>
    requires { AllByRecursion IsKeptFrame frames.items }
    ensures found { result ≡ up_to most (set_of frame_cmp frames.items) }
    ensures ascends { IfSome result (λ fs. IsAscending frame_cmp fs) }
    ensures kept { IfSome result (λ fs. AllByRecursion IsKeptFrame fs) }
{
    let mut frames = frames;
    make_ascending(&mut frames);
    if passes(most, frames.len()) {
        None
    } else {
        Some(Items::from_vec(frames))
    }
}
