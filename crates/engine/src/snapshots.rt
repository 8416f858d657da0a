//! The open snapshots of a store.
ghost use Rattle.std.specs.Prelude.{◌≡◌, ◌↔◌, ◌≤◌, ◌==◌, [], ◌∷◌, length, IsTrue, MatchResult};
ghost use Rattle.std.specs.List.{position};
ghost use Rattle.kv_types.specs.Snapshots.{is_open, least, without};

use kv_types::Number;
use std::alloc::{AllocError, Global};
use std::collections::VecDeque;
use std::marker::Model;

/// The greatest number of open snapshots.
pub const MAX_SNAPSHOTS: usize = 64;

/// The numbers of the open snapshots, the one opened last first. One number may stand there several
/// times.
#[derive(Drop)]
pub struct Snapshots {
    numbers: VecDeque<Number>,
}

impl Model for Snapshots {
    ghost use Rattle.std.specs.Prelude.{ℕ, List};

    ghost Value = { List ℕ };

    ghost view = { λ it. it.numbers.items };
}

// The first place of the number, if it stands there.
fn place_of(numbers: &VecDeque<Number>, number: Number) -> Option<usize>
    ensures { result ≡ position (λ it. number == it) numbers.now.items }
{
    numbers.iter().position(|open| number == *open)
}

// Whether the number stands there.
fn has(numbers: &VecDeque<Number>, number: Number) -> bool
    ensures { result ≡ is_open number numbers.now.items }
{
    let place = place_of(numbers, number);
    place.is_some()
}

// Removes the first of the number, if it stands there.
fn remove_first(numbers: &mut VecDeque<Number>, number: Number)
    ensures { numbers.new.items ≡ without number numbers.old.items }
{
    let place = place_of(numbers, number);
    if let Some(place) = place {
        numbers.remove(place);
    }
}

impl Snapshots {
    /// No snapshot.
    pub fn new(alloc: Global) -> Snapshots
        ensures { result ≡ [] }
    {
        Snapshots {
            numbers: VecDeque::new(alloc),
        }
    }

    /// The least of a number and the open snapshots.
    pub fn least(&self, number: Number) -> Number
        ensures { result ≡ least number self.now }
    {
        let mut least = number;
        for open in self.numbers.iter() {
            least = least.min(*open);
        }
        least
    }

    /// Whether as many are open as may be.
    pub fn is_full(&self) -> bool
        ensures { IsTrue result ↔ (MAX_SNAPSHOTS ≤ length self.now) }
    {
        self.numbers.len() >= MAX_SNAPSHOTS
    }

    /// One snapshot more. A refusal changes nothing.
    pub fn add(&mut self, at: Number) -> Result<(), AllocError>
        ensures { MatchResult result (λ _. self.new ≡ at ∷ self.old) (λ _. self.new ≡ self.old) }
    {
        match self.numbers.push_front(at) {
            Ok(()) => Ok(()),
            Err(_) => Err(AllocError),
        }
    }

    /// Whether a snapshot of this number is open.
    pub fn contains(&self, number: Number) -> bool
        ensures { result ≡ is_open number self.now }
    {
        has(&self.numbers, number)
    }

    /// Removes the snapshot of this number that was opened last, if there is one.
    pub fn remove(&mut self, number: Number)
        ensures { self.new ≡ without number self.old }
    {
        remove_first(&mut self.numbers, number);
    }
}
