//! Where a walk over cursors starts.
ghost use Rattle.store_cursors.specs.Concatenation.{may_allocate, rank, start_at_end};
ghost use Rattle.store_cursors.specs.Concatenation.{walk_start, walk_way};
ghost use Rattle.std.specs.Prelude.{◌≡◌, ◌<◌};
ghost use Rattle.merge_iter.specs.{MovesBy};

use byte_fields::LentKey;
use merge_iter::{Cursor, CursorError, Direction};

/// Where a walk starts: at an end of the entries, or at a key and number.
#[derive(Clone, Copy, Drop)]
pub enum Start<'k> {
    /// At the first entry, forward.
    First,
    /// At the last entry, backward.
    Last,
    /// At the first entry that is not before these, forward.
    At(LentKey<'k>, u64),
}

impl<'k> Start<'k> {
    /// At the end of the entries where a walk in this direction begins.
    pub fn at_end(way: Direction) -> Start<'k>
        ensures { result ≡ start_at_end way }
    {
        match way {
            Direction::Forward => Start::First,
            Direction::Backward => Start::Last,
        }
    }

    /// The direction of the walk.
    pub fn way(self) -> Direction
        ensures { result ≡ walk_way self.entry }
    {
        match self {
            Start::First => Direction::Forward,
            Start::Last => Direction::Backward,
            Start::At(_, _) => Direction::Forward,
        }
    }

    /// Moves a cursor to the first entry of the walk.
    pub fn enter<C: Cursor>(self, cursor: &mut C, source: &mut C::Source) -> Result<(), CursorError>
        ensures { MovesBy C.is_intact C.holds C.is_sound C.suits C.keeps C.makes C.failures
            C.position C.most (may_allocate C.Cursor self.entry) (walk_way self.entry)
            (walk_start self.entry) cursor.old source.old cursor.new source.new result }
    {
        match self {
            Start::First => cursor.first(source),
            Start::Last => cursor.last(source),
            Start::At(key, number) => cursor.seek(source, key, number),
        }
    }
}

/// How many of the children a walk in this direction meets before child `k`. It is the place of a
/// child with so many before it, too.
pub fn rank(way: Direction, len: usize, k: usize) -> usize
    requires { k < len }
    ensures { result ≡ rank way len k }
{
    match way {
        Direction::Forward => k,
        Direction::Backward => len - 1 - k,
    }
}
