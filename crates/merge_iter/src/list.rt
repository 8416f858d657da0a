//! A cursor over a sorted list in memory.
ghost use Rattle.std.specs.Prelude.{◌≡◌, length};
ghost use Rattle.std.specs.Ordering.{is_lt};
ghost use Rattle.byte_fields.specs.{lent_key};
ghost use Rattle.merge_iter.specs.ListEntries.{position_at, entry_of, ListHolds, IsSortedList};
ghost use Rattle.merge_iter.specs.ListEntries.{entries_left};
ghost use Rattle.merge_iter.specs.Lists.{list_fits, list_laws};
ghost use Rattle.merge_iter.specs.Order.{IsAlike, entry_cmp, spot};
ghost use Rattle.merge_iter.specs.Positions.{Off};

use crate::cursor::Cursor;
use crate::error::CursorError;
use crate::order;
use crate::owned_entry::OwnedEntry;
use byte_fields::LentKey;

// Whether the entry comes before that key and number.
fn is_before(entry: &OwnedEntry, key: LentKey, number: u64) -> bool
    ensures { result ≡ is_lt (entry_cmp (entry_of entry.now) (spot (lent_key key.entry) number)) }
{
    order(entry.key.lent(), entry.number, key, number).is_lt()
}

/// A cursor over a sorted list in memory. It needs no source, and its moves refuse nothing.
#[derive(Drop)]
pub struct ListCursor {
    entries: Vec<OwnedEntry>,
    at: usize,
}

impl ListCursor {
    /// A cursor over these entries, which are to be in order. It stands on none.
    pub fn new(entries: Vec<OwnedEntry>) -> Self
        ensures off { ⟦<ListCursor as Cursor>⟧.position result ≡ Off }
        ensures sound { IsSortedList entries.items →
            ⟦<ListCursor as Cursor>⟧.is_sound tt result tt }
        ensures entries { IsAlike (⟦<ListCursor as Cursor>⟧.holds tt result tt)
            (ListHolds entries.items) }
    {
        let at = entries.len();
        ListCursor { entries, at }
    }
}

impl Cursor for ListCursor {
    type Source = ();

    ghost position = { λ c. position_at c.entries.items c.at };

    ghost Meant = { Unit {0} };

    ghost as_is = { λ _. tt };

    ghost is_intact = { λ _ _. Unit {0} };

    ghost holds = { λ _ c _. ListHolds c.entries.items };

    ghost is_sound = { λ _ c _. IsSortedList c.entries.items };

    ghost keeps = { λ _ _. Unit {0} };

    ghost suits = { λ _ _ _. Unit {0} };

    ghost makes = { λ _ _ _. Unit {0} };

    ghost failures = { λ _. 0 };

    ghost left = { λ c. entries_left c.entries.items c.at };

    ghost most = { λ c. length c.entries.items };

    ghost steps_allocate = { ⊥ };

    ghost seeks_allocate = { ⊥ };

    fn valid(&self) -> bool {
        self.at < self.entries.len()
    }

    fn key(&self) -> LentKey<'_> {
        self.entries[self.at].key.lent()
    }

    fn number(&self) -> u64 {
        self.entries[self.at].number
    }

    fn value(&self) -> Option<&[u8]> {
        match &self.entries[self.at].value {
            Some(value) => Some(value.as_slice()),
            None => None,
        }
    }

    fn next(&mut self, _source: &mut ()) -> Result<(), CursorError> {
        self.at += 1;
        Ok(())
    }

    fn prev(&mut self, _source: &mut ()) -> Result<(), CursorError> {
        if self.at == 0 {
            self.at = self.entries.len();
        } else {
            self.at -= 1;
        }
        Ok(())
    }

    fn seek(&mut self, _source: &mut (), key: LentKey<'_>, number: u64) -> Result<(), CursorError> {
        self.at = self
            .entries
            .partition_point(|entry| is_before(entry, key, number));
        Ok(())
    }

    fn first(&mut self, _source: &mut ()) -> Result<(), CursorError> {
        self.at = 0;
        Ok(())
    }

    fn last(&mut self, _source: &mut ()) -> Result<(), CursorError> {
        self.at = self.entries.len().saturating_sub(1);
        Ok(())
    }

    ghost laws = { list_laws };

    ghost fits = { list_fits };
}
