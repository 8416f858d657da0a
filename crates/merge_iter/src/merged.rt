//! The sorted union of cursors.
ghost use Rattle.std.specs.Prelude.{◌≡◌};
ghost use Rattle.merge_iter.specs.Order.{IsAlike};
ghost use Rattle.merge_iter.specs.Positions.{AtEnd, Off};
ghost use Rattle.merge_iter.specs.Moves.{CanStep};
ghost use Rattle.merge_iter.specs.Merging.{EachChild, union_position, merged_left, merged_most};
ghost use Rattle.merge_iter.specs.Unions.{union_fits, union_laws};
ghost use Rattle.merge_iter.specs.LentCursors.{AreDisjoint, AreSound, IsUnion, MovesCursor};
ghost use Rattle.merge_iter.specs.LentCursors.{StepsCursor, union_of};

use crate::children::{advance, resettle, seek_all, settle, start_all};
use crate::cursor::Cursor;
use crate::direction::Direction;
use crate::error::CursorError;
use crate::place::Place;
use byte_fields::LentKey;

/// The sorted union of several cursors, of which no two hold entries of one key and number. What it
/// lends is lent by the child that it stands on.
#[derive(Drop)]
pub struct Merged<C> {
    children: Vec<C>,
    place: Place,
}

impl<C: Cursor> Merged<C> {
    /// The union of these cursors. It stands on none.
    pub fn new(children: Vec<C>) -> Self
        ensures off { ⟦<Merged<C> as Cursor>⟧.position result ≡ Off }
        ensures sound { (meant : C.Meant) (source : C.Source) →
            AreSound C.Cursor meant children.items source →
            AreDisjoint C.Cursor meant children.items source →
            ⟦<Merged<C> as Cursor>⟧.is_sound meant result source }
        ensures entries { (meant : C.Meant) (source : C.Source) →
            IsAlike (⟦<Merged<C> as Cursor>⟧.holds meant result source)
            (union_of C.Cursor meant children.items source) }
        ensures suits { (a b : C.Source) → EachChild (λ c. C.suits c a b) children.items →
            ⟦<Merged<C> as Cursor>⟧.suits result a b }
    {
        Merged {
            children,
            place: Place::Off,
        }
    }

    // Steps to the next entry in this direction.
    fn walk(&mut self, way: Direction, source: &mut C::Source) -> Result<(), CursorError>
        requires { CanStep (⟦<Merged<C> as Cursor>⟧.position self.old) }
        ensures { StepsCursor ⟦<Merged<C> as Cursor>⟧ way self.old source.old self.new source.new
            result }
    {
        let Place::On(was, k, second) = self.place else {
            return Err(CursorError::Failed);
        };
        if !self.children[k].valid() {
            return Err(CursorError::Failed);
        }
        self.place = Place::Broken;
        advance(&mut self.children, was, k, way, source)?;
        self.place = resettle(&self.children, was, k, second, way);
        Ok(())
    }

    // Moves to the first entry of a walk in this direction.
    fn begin(&mut self, way: Direction, source: &mut C::Source) -> Result<(), CursorError>
        ensures { MovesCursor ⟦<Merged<C> as Cursor>⟧ way AtEnd self.old source.old self.new
            source.new result }
    {
        self.place = Place::Broken;
        start_all(&mut self.children, way, source)?;
        self.place = settle(&self.children, way);
        Ok(())
    }
}

impl<C: Cursor> Cursor for Merged<C> {
    type Source = C::Source;

    ghost position = { λ m. union_position C.position m.children.items m.place };

    ghost Meant = { C.Meant };

    ghost as_is = { C.as_is };

    ghost is_intact = { C.is_intact };

    ghost holds = { λ meant m source. union_of C.Cursor meant m.children.items source };

    ghost is_sound = { λ meant m source. IsUnion C.Cursor meant m.children.items m.place source };

    ghost keeps = { C.keeps };

    ghost suits = { λ m a b. EachChild (λ c. C.suits c a b) m.children.items };

    ghost makes = { C.makes };

    ghost failures = { C.failures };

    ghost left = { λ m. merged_left C.left C.most m.children.items m.place };

    ghost most = { λ m. merged_most C.most m.children.items };

    ghost steps_allocate = { C.steps_allocate };

    ghost seeks_allocate = { C.seeks_allocate };

    fn valid(&self) -> bool {
        match self.place {
            Place::On(_, k, _) => match self.children.get(k) {
                Some(child) => child.valid(),
                None => false,
            },
            Place::Off => false,
            Place::Broken => false,
        }
    }

    fn key(&self) -> LentKey<'_> {
        match self.place {
            Place::On(_, k, _) => self.children[k].key(),
            Place::Off => LentKey::least(),
            Place::Broken => LentKey::least(),
        }
    }

    fn number(&self) -> u64 {
        match self.place {
            Place::On(_, k, _) => self.children[k].number(),
            Place::Off => 0,
            Place::Broken => 0,
        }
    }

    fn value(&self) -> Option<&[u8]> {
        match self.place {
            Place::On(_, k, _) => self.children[k].value(),
            Place::Off => None,
            Place::Broken => None,
        }
    }

    fn next(&mut self, source: &mut C::Source) -> Result<(), CursorError> {
        self.walk(Direction::Forward, source)
    }

    fn prev(&mut self, source: &mut C::Source) -> Result<(), CursorError> {
        self.walk(Direction::Backward, source)
    }

    fn seek(
        &mut self,
        source: &mut C::Source,
        key: LentKey<'_>,
        number: u64,
    ) -> Result<(), CursorError> {
        self.place = Place::Broken;
        seek_all(&mut self.children, source, key, number)?;
        self.place = settle(&self.children, Direction::Forward);
        Ok(())
    }

    fn first(&mut self, source: &mut C::Source) -> Result<(), CursorError> {
        self.begin(Direction::Forward, source)
    }

    fn last(&mut self, source: &mut C::Source) -> Result<(), CursorError> {
        self.begin(Direction::Backward, source)
    }

    ghost laws = { union_laws C.holds C.is_sound C.suits C.keeps C.most C.left C.position C.laws
        (λ m. m.children.items) (λ m. m.place) };

    ghost fits = { λ m. union_fits C.position C.fits m.children.items m.place };
}
