//! Cursors one after another, as one cursor.
ghost use Rattle.std.specs.Prelude.{◌≡◌, ◌<◌, Some};
ghost use Rattle.merge_iter.specs.{CanStep, EachChild, IsAlike, Off, UnionHolds};
ghost use Rattle.merge_iter.specs.LentCursors.{StepsCursor};
ghost use Rattle.store_cursors.specs.Concatenation.{AreConcatenated, IsConcatenation};
ghost use Rattle.store_cursors.specs.Concatenation.{concatenated_left, concatenated_most};
ghost use Rattle.store_cursors.specs.Concatenation.{concatenated_position};
ghost use Rattle.store_cursors.specs.ConcatenationLaws.{concatenated_fits, concatenated_laws};

use crate::child_place::ChildPlace;
use crate::in_turn::{Ends, ended, enter_from, step_from};
use crate::start::Start;
use byte_fields::LentKey;
use merge_iter::{Cursor, CursorError, Direction};

/// Cursors one after another: the entries of each come before those of the next. It stands where
/// one of them does, and where the others stand is of no account.
#[derive(Drop)]
pub struct Concatenated<C> {
    children: Vec<C>,
    place: ChildPlace,
}

impl<C: Ends> Concatenated<C> {
    /// These cursors, one after another. It stands on none.
    pub fn new(children: Vec<C>) -> Self
        ensures off { ⟦<Concatenated<C> as Cursor>⟧.position result ≡ Off }
        ensures sound { (meant : C.Meant) (source : C.Source) →
            EachChild (λ c. C.is_sound meant c source) children.items →
            AreConcatenated (λ c. C.holds meant c source) children.items →
            ⟦<Concatenated<C> as Cursor>⟧.is_sound meant result source }
        ensures entries { (meant : C.Meant) (source : C.Source) →
            IsAlike (⟦<Concatenated<C> as Cursor>⟧.holds meant result source)
            (UnionHolds (λ c. C.holds meant c source) children.items) }
        ensures suits { (a b : C.Source) → EachChild (λ c. C.suits c a b) children.items →
            ⟦<Concatenated<C> as Cursor>⟧.suits result a b }
    {
        Concatenated {
            children,
            place: ChildPlace::Off,
        }
    }

    // Steps to the next entry in this direction.
    fn walk(&mut self, way: Direction, source: &mut C::Source) -> Result<(), CursorError>
        requires { CanStep (⟦<Concatenated<C> as Cursor>⟧.position self.old) }
        ensures { StepsCursor ⟦<Concatenated<C> as Cursor>⟧ way self.old source.old
            self.new source.new result }
    {
        let ChildPlace::On(k) = self.place else {
            return Err(CursorError::Failed);
        };
        if k >= self.children.len() {
            return Err(CursorError::Failed);
        }
        self.place = ChildPlace::Broken;
        self.place = step_from(&mut self.children, k, way, source)?;
        Ok(())
    }
}

impl<C: Ends> Cursor for Concatenated<C> {
    type Source = C::Source;

    ghost position = { λ m. concatenated_position C.position m.children.items m.place };

    ghost Meant = { C.Meant };

    ghost as_is = { C.as_is };

    ghost is_intact = { C.is_intact };

    ghost holds = { λ meant m source. UnionHolds (λ c. C.holds meant c source) m.children.items };

    ghost is_sound = { λ meant m source. IsConcatenation (λ c. C.holds meant c source) C.position
        (λ c. C.is_sound meant c source) m.children.items m.place };

    ghost keeps = { C.keeps };

    ghost suits = { λ m a b. EachChild (λ c. C.suits c a b) m.children.items };

    ghost makes = { C.makes };

    ghost failures = { C.failures };

    ghost left = { λ m. concatenated_left C.left C.most m.children.items m.place };

    ghost most = { λ m. concatenated_most C.most m.children.items };

    ghost steps_allocate = { C.steps_allocate };

    ghost seeks_allocate = { C.seeks_allocate };

    #[inline(always)]
    fn valid(&self) -> bool {
        match self.place {
            ChildPlace::On(k) => match self.children.get(k) {
                Some(child) => child.valid(),
                None => false,
            },
            ChildPlace::Off => false,
            ChildPlace::Broken => false,
        }
    }

    #[inline(always)]
    fn key(&self) -> LentKey<'_> {
        match self.place {
            ChildPlace::On(k) => self.children[k].key(),
            ChildPlace::Off => LentKey::least(),
            ChildPlace::Broken => LentKey::least(),
        }
    }

    #[inline(always)]
    fn number(&self) -> u64 {
        match self.place {
            ChildPlace::On(k) => self.children[k].number(),
            ChildPlace::Off => 0,
            ChildPlace::Broken => 0,
        }
    }

    #[inline(always)]
    fn value(&self) -> Option<&[u8]> {
        match self.place {
            ChildPlace::On(k) => self.children[k].value(),
            ChildPlace::Off => None,
            ChildPlace::Broken => None,
        }
    }

    fn next(&mut self, source: &mut C::Source) -> Result<(), CursorError> {
        self.walk(Direction::Forward, source)
    }

    fn prev(&mut self, source: &mut C::Source) -> Result<(), CursorError> {
        self.walk(Direction::Backward, source)
    }

    fn seek(
        &mut self,
        source: &mut C::Source,
        key: LentKey<'_>,
        number: u64,
    ) -> Result<(), CursorError> {
        let skipped = ended(&self.children, key);
        self.place = ChildPlace::Broken;
        self.place = enter_from(&mut self.children, Start::At(key, number), skipped, source)?;
        Ok(())
    }

    fn first(&mut self, source: &mut C::Source) -> Result<(), CursorError> {
        self.place = ChildPlace::Broken;
        self.place = enter_from(&mut self.children, Start::First, 0, source)?;
        Ok(())
    }

    fn last(&mut self, source: &mut C::Source) -> Result<(), CursorError> {
        self.place = ChildPlace::Broken;
        self.place = enter_from(&mut self.children, Start::Last, 0, source)?;
        Ok(())
    }

    ghost laws = { concatenated_laws C.holds C.is_sound C.suits C.keeps C.most C.left C.position
        C.laws (λ m. m.children.items) (λ m. m.place) };

    ghost fits = { λ m. concatenated_fits C.position C.fits m.children.items m.place };
}
