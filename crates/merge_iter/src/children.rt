//! Several cursors, moved together.
ghost use Rattle.std.specs.Prelude.{◌≡◌, ◌↔◌, ◌<◌, ◌≤◌, ◌+◌, IsTrue, OnOk, vec_len, None, Some};
ghost use Rattle.std.specs.List.{slice_get, sum_by};
ghost use Rattle.byte_fields.specs.{lent_key};
ghost use Rattle.kv_types.specs.{Entry};
ghost use Rattle.merge_iter.specs.Order.{spot};
ghost use Rattle.merge_iter.specs.Positions.{WalkStart, AtEnd, At, After, WalkMeets, IsOn};
ghost use Rattle.merge_iter.specs.Positions.{IsFirst, IsBroken};
ghost use Rattle.merge_iter.specs.Merging.{IsNearest, IsOpposite, IsPlaced, IsSecond};
ghost use Rattle.merge_iter.specs.Merging.{OthersStay, union_position, merged_left};
ghost use Rattle.merge_iter.specs.declared.direction.Direction.{Direction as Way};
ghost use Rattle.merge_iter.specs.declared.direction.Direction.TheVariants.{Forward};
ghost use Rattle.merge_iter.specs.LentCursors.{AreFirst, AreSound, MovesChildren};
ghost use Rattle.merge_iter.specs.LentCursors.{StepsChildren, union_of};

use crate::child::{precedes, start, step, turn};
use crate::cursor::Cursor;
use crate::direction::Direction;
use crate::error::CursorError;
use crate::place::Place;
use byte_fields::LentKey;

// The nearest of the first children but child `but`, with child `i` as one more of them.
fn nearer<C: Cursor>(
    children: &Vec<C>,
    way: Direction,
    but: usize,
    found: Option<usize>,
    i: usize,
) -> Option<usize>
    requires room { i < vec_len children.now }
    requires so_far { IsNearest C.position way children.now.items but i found }
    ensures { IsNearest C.position way children.now.items but (i + 1) result }
{
    if i == but {
        return found;
    }
    let child = &children[i];
    if !child.valid() {
        return found;
    }
    let Some(k) = found else {
        return Some(i);
    };
    let other = &children[k];
    if precedes(way, child, other) {
        Some(i)
    } else {
        Some(k)
    }
}

// Of the children but child `but`, the one whose entry a walk in this direction meets first.
fn nearest<C: Cursor>(children: &Vec<C>, way: Direction, but: usize) -> Option<usize>
    ensures { IsNearest C.position way children.now.items but (vec_len children.now) result }
{
    let mut found = None;
    for i in 0..children.len() {
        found = nearer(children, way, but, found, i);
    }
    found
}

/// Where the union stands, once each child stands on its first entry from the start on.
pub fn settle<C: Cursor>(children: &Vec<C>, way: Direction) -> Place
    ensures settles { (meant : C.Meant) (start : WalkStart) (source : C.Source) → AreFirst C.Cursor
        meant way start children.now.items source → IsFirst way (λ p. union_of C.Cursor meant
        children.now.items source p × WalkMeets way start p) (union_position C.position
        children.now.items result) × IsPlaced (λ c. C.holds meant c source) C.position
        children.now.items result }
    ensures left { merged_left C.left C.most children.now.items result way
        ≤ sum_by (λ c. C.left c way) children.now.items }
    ensures unbroken { IsBroken (union_position C.position children.now.items result) → ⊥ }
{
    match nearest(children, way, children.len()) {
        Some(k) => Place::On(way, k, nearest(children, way, k)),
        None => Place::Off,
    }
}

// Where the union stands, once child `k` has moved, where none of the others stands on an entry.
fn alone<C: Cursor>(children: &Vec<C>, k: usize, way: Direction) -> Place
    requires room { k < vec_len children.now }
    ensures settles { (meant : C.Meant) (start : WalkStart) (source : C.Source) →
        IsSecond C.position way children.now.items k None → AreFirst C.Cursor
        meant way start children.now.items source → IsFirst way (λ p. union_of C.Cursor meant
        children.now.items source p × WalkMeets way start p) (union_position C.position
        children.now.items result) × IsPlaced (λ c. C.holds meant c source) C.position
        children.now.items result }
    ensures left { merged_left C.left C.most children.now.items result way
        ≤ sum_by (λ c. C.left c way) children.now.items }
    ensures unbroken { IsBroken (union_position C.position children.now.items result) → ⊥ }
{
    if children[k].valid() {
        Place::On(way, k, None)
    } else {
        Place::Off
    }
}

/// Where the union stands, once child `k` has moved, and where it was moved in the same direction,
/// the others stand as they did, with the nearest of them as the second one.
pub fn resettle<C: Cursor>(
    children: &Vec<C>,
    was: Direction,
    k: usize,
    second: Option<usize>,
    way: Direction,
) -> Place
    requires room { k < vec_len children.now }
    ensures settles { (meant : C.Meant) (start : WalkStart) (source : C.Source) →
        (was ≡ way → IsSecond C.position way children.now.items k second) → AreFirst C.Cursor
        meant way start children.now.items source → IsFirst way (λ p. union_of C.Cursor meant
        children.now.items source p × WalkMeets way start p) (union_position C.position
        children.now.items result) × IsPlaced (λ c. C.holds meant c source) C.position
        children.now.items result }
    ensures left { merged_left C.left C.most children.now.items result way
        ≤ sum_by (λ c. C.left c way) children.now.items }
    ensures unbroken { IsBroken (union_position C.position children.now.items result) → ⊥ }
{
    if !is_same(was, way) {
        return settle(children, way);
    }
    let Some(other_place) = second else {
        return alone(children, k, way);
    };
    if other_place >= children.len() {
        return settle(children, way);
    }
    let other = &children[other_place];
    if !other.valid() {
        return settle(children, way);
    }
    let child = &children[k];
    if child.valid() && precedes(way, child, other) {
        Place::On(way, k, second)
    } else {
        Place::On(way, other_place, nearest(children, way, other_place))
    }
}

/// Moves each child to the first entry of a walk in this direction.
pub fn start_all<C: Cursor>(
    children: &mut Vec<C>,
    way: Direction,
    source: &mut C::Source,
) -> Result<(), CursorError>
    ensures moved { MovesChildren C.Cursor C.steps_allocate children.old.items source.old
        children.new.items source.new result }
    ensures finds { (meant : C.Meant) → AreSound C.Cursor meant children.old.items source.old →
        OnOk result (AreFirst C.Cursor meant way AtEnd children.new.items source.new) }
{
    for i in 0..children.len() {
        start(&mut children[i], way, source)?;
    }
    Ok(())
}

/// Moves each child to its first entry from this key and number on.
pub fn seek_all<C: Cursor>(
    children: &mut Vec<C>,
    source: &mut C::Source,
    key: LentKey,
    number: u64,
) -> Result<(), CursorError>
    ensures moved { MovesChildren C.Cursor C.seeks_allocate children.old.items source.old
        children.new.items source.new result }
    ensures finds { (meant : C.Meant) → AreSound C.Cursor meant children.old.items source.old →
        OnOk result (AreFirst C.Cursor meant Forward (At (spot (lent_key key.entry) number))
        children.new.items source.new) }
{
    for i in 0..children.len() {
        children[i].seek(source, key, number)?;
    }
    Ok(())
}

/// Turns each child round: from its first entry at or ahead of an entry in one direction to its
/// first one ahead of that entry in the other.
pub fn turn_all<C: Cursor>(
    children: &mut Vec<C>,
    way: Direction,
    source: &mut C::Source,
) -> Result<(), CursorError>
    ensures moved { MovesChildren C.Cursor C.steps_allocate children.old.items source.old
        children.new.items source.new result }
    ensures turns { (meant : C.Meant) → (was : Way) (entry : Entry) → IsOpposite was way →
        AreSound C.Cursor meant children.old.items source.old →
        AreFirst C.Cursor meant was (At entry) children.old.items source.old →
        OnOk result (AreFirst C.Cursor meant way (After entry) children.new.items source.new) }
{
    for i in 0..children.len() {
        turn(&mut children[i], way, source)?;
    }
    Ok(())
}

// Steps the child that the union stands on.
fn step_at<C: Cursor>(
    children: &mut Vec<C>,
    k: usize,
    way: Direction,
    source: &mut C::Source,
) -> Result<(), CursorError>
    requires room { k < vec_len children.old }
    requires on { (c : C) → slice_get children.old.items k ≡ Some c → IsOn (C.position c) }
    ensures steps { StepsChildren C.Cursor way way k children.old.items source.old
        children.new.items source.new result }
    ensures others { OthersStay k children.old.items children.new.items }
{
    step(&mut children[k], way, source)
}

// Whether two directions are equal.
fn is_same(one: Direction, other: Direction) -> bool
    ensures same { IsTrue result ↔ one ≡ other }
    ensures turned { (IsTrue result → ⊥) → IsOpposite one other }
{
    match one {
        Direction::Forward => match other {
            Direction::Forward => true,
            Direction::Backward => false,
        },
        Direction::Backward => match other {
            Direction::Forward => false,
            Direction::Backward => true,
        },
    }
}

/// Moves each child to its first entry ahead of the one that child `k` stands on.
pub fn advance<C: Cursor>(
    children: &mut Vec<C>,
    was: Direction,
    k: usize,
    way: Direction,
    source: &mut C::Source,
) -> Result<(), CursorError>
    requires room { k < vec_len children.old }
    requires on { (c : C) → slice_get children.old.items k ≡ Some c → IsOn (C.position c) }
    ensures steps { StepsChildren C.Cursor was way k children.old.items source.old
        children.new.items source.new result }
    ensures others { was ≡ way → OthersStay k children.old.items children.new.items }
{
    if is_same(was, way) {
        step_at(children, k, way, source)
    } else {
        turn_all(children, way, source)
    }
}
