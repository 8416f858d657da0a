//! One cursor, moved in either direction.
ghost use Rattle.std.specs.declared.cmp.Ordering.TheVariants.{Less};
ghost use Rattle.std.specs.Prelude.{◌≡◌, ◌↔◌, IsTrue};
ghost use Rattle.kv_types.specs.{Entry};
ghost use Rattle.merge_iter.specs.Order.{EntryPrecedes, entry_cmp};
ghost use Rattle.merge_iter.specs.Positions.{AtEnd, At, After, WalkMeets, IsOn, IfOn, IsFirst};
ghost use Rattle.merge_iter.specs.Moves.{CanStep, MoveFinds};
ghost use Rattle.merge_iter.specs.Merging.{IsOpposite};
ghost use Rattle.merge_iter.specs.declared.direction.Direction.{Direction as Way};
ghost use Rattle.merge_iter.specs.LentCursors.{MovesCursor, ShiftsCursor, StepsCursor};

use crate::cursor::Cursor;
use crate::direction::Direction;
use crate::error::CursorError;
use std::cmp::Ordering;

// Whether the entry of `one` comes before that of `other`. Numbers are read only for equal keys.
fn is_before_child<C: Cursor>(one: &C, other: &C) -> bool
    requires one_on { IsOn (C.position one.now) }
    requires other_on { IsOn (C.position other.now) }
    ensures { IfOn (C.position one.now) (λ a. IfOn (C.position other.now)
        (λ b. IsTrue result ↔ entry_cmp a b ≡ Less)) }
{
    match one.key().cmp(other.key()) {
        Ordering::Less => true,
        Ordering::Equal => other.number() < one.number(),
        Ordering::Greater => false,
    }
}

/// Whether a walk in this direction meets the entry of `one` before that of `other`.
pub fn precedes<C: Cursor>(way: Direction, one: &C, other: &C) -> bool
    requires one_on { IsOn (C.position one.now) }
    requires other_on { IsOn (C.position other.now) }
    ensures { IfOn (C.position one.now) (λ a. IfOn (C.position other.now)
        (λ b. IsTrue result ↔ EntryPrecedes way a b)) }
{
    match way {
        Direction::Forward => is_before_child(one, other),
        Direction::Backward => is_before_child(other, one),
    }
}

/// Steps to the next entry in this direction.
pub fn step<C: Cursor>(
    child: &mut C,
    way: Direction,
    source: &mut C::Source,
) -> Result<(), CursorError>
    requires { CanStep (C.position child.old) }
    ensures { StepsCursor C.Cursor way child.old source.old child.new source.new result }
{
    match way {
        Direction::Forward => child.next(source),
        Direction::Backward => child.prev(source),
    }
}

/// Moves to the first entry of a walk in this direction.
pub fn start<C: Cursor>(
    child: &mut C,
    way: Direction,
    source: &mut C::Source,
) -> Result<(), CursorError>
    ensures { MovesCursor C.Cursor way AtEnd child.old source.old child.new source.new result }
{
    match way {
        Direction::Forward => child.first(source),
        Direction::Backward => child.last(source),
    }
}

/// Turns a cursor round: from its first entry at or ahead of an entry in one direction to its first
/// one ahead of that entry in the other.
pub fn turn<C: Cursor>(
    child: &mut C,
    way: Direction,
    source: &mut C::Source,
) -> Result<(), CursorError>
    ensures moved { ShiftsCursor C.Cursor C.steps_allocate child.old source.old child.new source.new
        result }
    ensures turns { (meant : C.Meant) → (was : Way) (entry : Entry) → IsOpposite was way →
        C.is_sound meant child.old source.old → IsFirst was (λ p. C.holds meant child.old source.old
        p × WalkMeets was (At entry) p) (C.position child.old) → MoveFinds way (After entry)
        (C.holds meant child.old source.old) result (C.position child.new) }
{
    if child.valid() {
        step(child, way, source)
    } else {
        start(child, way, source)
    }
}
