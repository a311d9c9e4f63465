ghost use Rattle.number_marks.specs.Marking.{has_mark, with_mark, with_marks, with_room, past_all};
ghost use Rattle.std.specs.Prelude.{◌≡◌, ◌≤◌, ◌<◌, [], length, take, OnErr, OnOk, IfOk};

use std::alloc::{AllocError, Global};
use std::marker::Model;

/// Marks at numbers, from 0 on. Contracts see the list of them.
#[derive(Debug, Drop)]
pub struct Marks {
    marks: Vec<bool>,
}

impl Model for Marks {
    ghost use Rattle.std.specs.Coded.{coded_list, coded_bool};
    ghost use Rattle.std.specs.Prelude.{List, Bool};

    ghost Value = { List Bool };

    ghost coded = { coded_list coded_bool };

    ghost view = { λ m. m.marks.items };
}

// The number behind the greatest of these.
fn past(numbers: &[u64]) -> Result<usize, AllocError>
    ensures { IfOk result (λ n. n ≡ past_all numbers.now) }
{
    let mut past = 0;
    for number in numbers {
        let Some(next) = (*number as usize).checked_add(1) else {
            return Err(AllocError);
        };
        past = past.max(next);
    }
    Ok(past)
}

fn has_in(marks: &[bool], number: usize) -> bool
    ensures { result ≡ has_mark marks.now number }
{
    match sqlite_items::at(marks, number) {
        Some(mark) => *mark,
        None => false,
    }
}

// Makes the list longer; where memory refuses, its front is what it was.
#[tactic(auto, using(crate::specs::MarkingLaws::room_more, crate::specs::MarkingLaws::room_there, crate::specs::MarkingLaws::front_more, crate::specs::MarkingLaws::front_whole))]
fn grow(marks: &mut Vec<bool>, room: usize) -> Result<(), AllocError>
    ensures done { OnOk result (marks.new.items ≡ with_room room marks.old.items) }
    ensures front { take (length marks.old.items) marks.new.items ≡ marks.old.items }
{
    while marks.len() < room {
        if marks.push(false).is_err() {
            return Err(AllocError);
        }
    }
    Ok(())
}

#[tactic(auto, using(crate::specs::MarkingLaws::set_mark))]
fn mark_in(marks: &mut Vec<bool>, number: usize)
    requires { number < length marks.old.items }
    ensures { marks.new.items ≡ with_mark number marks.old.items }
{
    marks[number] = true;
}

fn mark_each(marks: &mut Vec<bool>, numbers: &[u64])
    requires { past_all numbers.now ≤ length marks.old.items }
    ensures { marks.new.items ≡ with_marks numbers.now marks.old.items }
{
    for number in numbers {
        mark_in(marks, *number as usize);
    }
}

impl Marks {
    /// No marks. It takes no memory.
    pub fn new(alloc: Global) -> Marks
        ensures { result ≡ [] }
    {
        Marks {
            marks: Vec::new(alloc),
        }
    }

    /// Up to which number there is room.
    pub fn room(&self) -> usize
        ensures { result ≡ length self.now }
    {
        self.marks.len()
    }

    /// Whether a number has a mark.
    pub fn has(&self, number: u64) -> bool
        ensures { result ≡ has_mark self.now number }
    {
        has_in(self.marks.as_slice(), number as usize)
    }

    /// Makes room for marks at all of these numbers, or leaves the marks as they were.
    pub fn make_room(&mut self, numbers: &[u64]) -> Result<(), AllocError>
        ensures done { OnOk result (self.new ≡ with_room (past_all numbers.now) self.old) }
        ensures same { OnErr result (self.new ≡ self.old) }
    {
        let room = past(numbers)?;
        let before = self.marks.len();
        match grow(&mut self.marks, room) {
            Ok(()) => Ok(()),
            Err(AllocError) => {
                self.marks.truncate(before);
                Err(AllocError)
            }
        }
    }

    /// Gives up the room behind so many numbers. It takes no memory.
    pub fn drop_room(&mut self, room: usize)
        ensures { self.new ≡ take room self.old }
    {
        self.marks.truncate(room);
    }

    /// Gives a mark to each of these numbers, for which there is room. It takes no memory.
    pub fn mark_all(&mut self, numbers: &[u64])
        requires { past_all numbers.now ≤ length self.old }
        ensures { self.new ≡ with_marks numbers.now self.old }
    {
        mark_each(&mut self.marks, numbers);
    }
}
