//! A search for an order of use or for a circle. Its caller judges what it finds, so nothing is claimed of it here.

use sqlite_items::Items;
use std::alloc::{AllocError, Global};

/// What a search finds: the rank of each definition in an order of use, or a circle.
#[derive(Drop)]
pub enum Found {
    Ranks(Vec<u64>),
    Circle(Vec<usize>),
}

// How far the search has come with a definition.
#[derive(Clone, Copy, PartialEq, Eq)]
enum Progress {
    New,
    Open,
    Done,
}

#[derive(Drop)]
struct Search {
    progress: Vec<Progress>,
    ranks: Vec<u64>,
    // The definitions on the way, each with how many of its uses were followed.
    way: Vec<(usize, usize)>,
    // The first definition that wasn't begun with.
    next: usize,
    // How many definitions are done.
    done: u64,
}

fn progress_of(search: &Search, i: usize) -> Progress {
    match search.progress.get(i) {
        Some(progress) => *progress,
        None => Progress::Done,
    }
}

fn set_progress(search: &mut Search, i: usize, progress: Progress) {
    if i < search.progress.len() {
        search.progress[i] = progress;
    }
}

fn open(search: &mut Search, i: usize) -> Result<(), AllocError> {
    search.way.push((i, 0))?;
    set_progress(search, i, Progress::Open);
    Ok(())
}

fn close(search: &mut Search, i: usize) {
    set_progress(search, i, Progress::Done);
    if i < search.ranks.len() {
        search.ranks[i] = search.done;
    }
    search.done = search.done.saturating_add(1);
}

fn use_at(uses: &[Items<usize>], i: usize, k: usize) -> Option<usize> {
    let row = uses.get(i)?;
    row.as_slice().get(k).copied()
}

// Follows one use of a definition; the definition that closes a circle, if one does.
fn follow(search: &mut Search, i: usize, k: usize, j: usize) -> Result<Option<usize>, AllocError> {
    search.way.push((i, k.saturating_add(1)))?;
    match progress_of(search, j) {
        Progress::New => {
            open(search, j)?;
            Ok(None)
        }
        Progress::Open => Ok(Some(j)),
        Progress::Done => Ok(None),
    }
}

fn begin(search: &mut Search) -> Result<(), AllocError> {
    let i = search.next;
    search.next = i.saturating_add(1);
    if progress_of(search, i) == Progress::New {
        open(search, i)?;
    }
    Ok(())
}

fn step(search: &mut Search, uses: &[Items<usize>]) -> Result<Option<usize>, AllocError> {
    match search.way.pop() {
        Some((i, k)) => match use_at(uses, i, k) {
            Some(j) => follow(search, i, k, j),
            None => {
                close(search, i);
                Ok(None)
            }
        },
        None => {
            begin(search)?;
            Ok(None)
        }
    }
}

// The definitions on the way from one on.
fn circle_from(
    way: &[(usize, usize)],
    first: usize,
    alloc: Global,
) -> Result<Vec<usize>, AllocError> {
    let mut circle = Vec::new(alloc);
    let mut found = false;
    for place in way {
        if place.0 == first {
            found = true;
        }
        if found {
            circle.push(place.0)?;
        }
    }
    Ok(circle)
}

// More steps than a search through these uses takes.
fn steps_for(uses: &[Items<usize>]) -> usize {
    let mut steps = 1usize;
    for row in uses {
        steps = steps.saturating_add(row.len()).saturating_add(3);
    }
    steps
}

/// An order of use, or a circle.
pub fn order_of_use(uses: &[Items<usize>], alloc: Global) -> Result<Found, AllocError> {
    let mut search = Search {
        progress: Vec::new(alloc),
        ranks: Vec::new(alloc),
        way: Vec::new(alloc),
        next: 0,
        done: 0,
    };
    for _ in uses {
        search.progress.push(Progress::New)?;
        search.ranks.push(0)?;
    }
    for _ in 0..steps_for(uses) {
        if let Some(first) = step(&mut search, uses)? {
            return Ok(Found::Circle(circle_from(search.way.as_slice(), first, alloc)?));
        }
    }
    let Search {
        progress: _,
        ranks,
        way: _,
        next: _,
        done: _,
    } = search;
    Ok(Found::Ranks(ranks))
}
