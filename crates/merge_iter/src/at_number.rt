//! The entries that the view at a number shows.
ghost use Rattle.std.proofs.Props.{props};
ghost use Rattle.std.specs.Prelude.{◌≡◌, ◌+◌};
ghost use Rattle.merge_iter.specs.Order.{IsAlike};
ghost use Rattle.merge_iter.specs.Positions.{Off};
ghost use Rattle.merge_iter.specs.KeptEntries.{kept_entry};
ghost use Rattle.kv_types.specs.{IsShown};
ghost use Rattle.merge_iter.specs.ShownEntries.{IfKept, IsSettled, view_position, left_in};
ghost use Rattle.merge_iter.specs.TableEntries.{IsTableEntry};
ghost use Rattle.merge_iter.specs.Views.{IsView};
ghost use Rattle.merge_iter.specs.AtNumbers.{view_fits, view_laws};

use crate::cursor::Cursor;
use crate::error::CursorError;
use crate::kept::KeptEntry;
use crate::mode::Mode;
use crate::turns::{first_shown, last_shown, next_shown, prev_shown, seek_shown};
use byte_fields::LentKey;
use std::alloc::Global;

/// The entries of a cursor that the view at a number shows: of each key the newest with at most
/// that number, if it is no deletion.
///
/// Walking forward it stands on the entry of the cursor below, which lends it. A walk back meets
/// the newest entry of a key last: only behind the key is it known which entry is shown. So that
/// entry is kept in memory of this cursor, and lent from there.
#[derive(Drop)]
pub struct AtNumber<C> {
    inner: C,
    at: u64,
    mode: Mode,
    kept: KeptEntry,
    ghost kept_fits: { IfKept mode (IsTableEntry (kept_entry kept)) } by { Prim.hlevel props },
}

impl<C: Cursor> AtNumber<C> {
    /// The entries of this cursor that the view at the number shows. It stands on none.
    pub fn new(alloc: Global, inner: C, at: u64) -> Self
        ensures off { ⟦<AtNumber<C> as Cursor>⟧.position result ≡ Off }
        ensures sound { (meant : C.Meant) (source : C.Source) → C.is_sound meant inner source →
            ⟦<AtNumber<C> as Cursor>⟧.is_sound meant result source }
        ensures entries { (meant : C.Meant) (source : C.Source) →
            IsAlike (⟦<AtNumber<C> as Cursor>⟧.holds meant result source)
            (IsShown at (C.holds meant inner source)) }
        ensures view { (meant : C.Meant) (source : C.Source) → C.is_sound meant inner source →
            IsView at (C.holds meant inner source)
            (⟦<AtNumber<C> as Cursor>⟧.holds meant result source) }
    {
        AtNumber {
            inner,
            at,
            mode: Mode::Off,
            kept: KeptEntry::new(alloc),
        }
    }
}

impl<C: Cursor> Cursor for AtNumber<C> {
    type Source = C::Source;

    ghost position = { λ a. view_position a.mode (C.position a.inner) (kept_entry a.kept) };

    ghost Meant = { C.Meant };

    ghost as_is = { C.as_is };

    ghost is_intact = { C.is_intact };

    ghost holds = { λ meant a source. IsShown a.at (C.holds meant a.inner source) };

    ghost is_sound = { λ meant a source. C.is_sound meant a.inner source × IsSettled a.at
        (C.holds meant a.inner source) a.mode (C.position a.inner) (kept_entry a.kept) };

    ghost keeps = { C.keeps };

    ghost suits = { λ a s t. C.suits a.inner s t };

    ghost makes = { C.makes };

    ghost failures = { C.failures };

    ghost left = { λ a. left_in (C.left a.inner) (C.most a.inner) a.mode };

    ghost most = { λ a. C.most a.inner + 2 };

    ghost steps_allocate = { Unit {0} };

    ghost seeks_allocate = { Unit {0} };

    fn valid(&self) -> bool {
        match self.mode {
            Mode::Inner => self.inner.valid(),
            Mode::Kept => true,
            Mode::Off => false,
            Mode::Broken => false,
        }
    }

    fn key(&self) -> LentKey<'_> {
        match self.mode {
            Mode::Inner => self.inner.key(),
            Mode::Kept => self.kept.key.lent(),
            Mode::Off => LentKey::least(),
            Mode::Broken => LentKey::least(),
        }
    }

    fn number(&self) -> u64 {
        match self.mode {
            Mode::Inner => self.inner.number(),
            Mode::Kept => self.kept.number,
            Mode::Off => 0,
            Mode::Broken => 0,
        }
    }

    fn value(&self) -> Option<&[u8]> {
        match self.mode {
            Mode::Inner => self.inner.value(),
            Mode::Kept => Some(self.kept.value.as_slice()),
            Mode::Off => None,
            Mode::Broken => None,
        }
    }

    fn next(&mut self, source: &mut C::Source) -> Result<(), CursorError> {
        if !self.valid() {
            return Err(CursorError::Failed);
        }
        let mode = self.mode;
        self.mode = Mode::Broken;
        self.mode = next_shown(&mut self.inner, source, self.at, mode, &mut self.kept)?;
        Ok(())
    }

    fn prev(&mut self, source: &mut C::Source) -> Result<(), CursorError> {
        if !self.valid() {
            return Err(CursorError::Failed);
        }
        let mode = self.mode;
        self.mode = Mode::Broken;
        self.mode = prev_shown(&mut self.inner, source, self.at, mode, &mut self.kept)?;
        Ok(())
    }

    fn seek(
        &mut self,
        source: &mut C::Source,
        key: LentKey<'_>,
        number: u64,
    ) -> Result<(), CursorError> {
        self.mode = Mode::Broken;
        self.mode = seek_shown(
            &mut self.inner,
            source,
            self.at,
            key,
            number,
            &mut self.kept,
        )?;
        Ok(())
    }

    fn first(&mut self, source: &mut C::Source) -> Result<(), CursorError> {
        self.mode = Mode::Broken;
        self.mode = first_shown(&mut self.inner, source, self.at, &mut self.kept)?;
        Ok(())
    }

    fn last(&mut self, source: &mut C::Source) -> Result<(), CursorError> {
        self.mode = Mode::Broken;
        self.mode = last_shown(&mut self.inner, source, self.at, &mut self.kept)?;
        Ok(())
    }

    ghost laws = { view_laws C.holds C.is_sound C.suits C.keeps C.left C.most C.position C.laws
        (λ a. a.inner) (λ a. a.at) (λ a. a.mode) (λ a. kept_entry a.kept) };

    ghost fits = { λ a. view_fits a.mode (C.position a.inner) (kept_entry a.kept) (C.fits a.inner)
        a.kept_fits };
}
