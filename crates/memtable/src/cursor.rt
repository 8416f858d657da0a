//! A cursor over the entries of a memtable.

ghost use Rattle.std.specs.Prelude.{◌≡◌, IfOk, IfSome, false, None};
ghost use Rattle.std.specs.Option.{ForSome};
ghost use Rattle.byte_fields.specs.{lent_key};
ghost use Rattle.std.proofs.Props.{props};
ghost use Rattle.merge_iter.specs.declared.direction.Direction.TheVariants.{Forward};
ghost use Rattle.merge_iter.specs.{EntryPrecedes, IsFirst, spot};
ghost use Rattle.memtable.specs.Maps.{MapHolds, HasRisingNumbers, HasLimits};
ghost use Rattle.memtable.specs.Places.{IsVersionPlace, maybe_position};
ghost use Rattle.memtable.specs.Ranges.{keys_after, keys_before};

use crate::place::{VersionPlace, back, from, front};
use crate::version::Versions;
use byte_fields::{LentKey, MAX_KEY, StoredKey};
use merge_iter::{Cursor, CursorError};
use std::alloc::{AllocError, Global};
use std::collections::BTreeMap;
use std::collections::btree_map::Range;
use std::ops::Bound;

/// A cursor over the entries of a memtable. It holds the keys that lie ahead of it in the
/// direction of its last step, so that only a turn and a seek search the map.
#[derive(Drop)]
pub struct MemCursor<'a> {
    alloc: Global,
    map: &'a BTreeMap<StoredKey, Versions>,
    place: Option<VersionPlace<'a>>,
    after: Option<Range<'a, StoredKey, Versions>>,
    before: Option<Range<'a, StoredKey, Versions>>,
    has_failed: bool,
    ghost rising: { HasRisingNumbers map.now },
    ghost limits: { HasLimits map.now } by { Prim.hlevel props },
    ghost placed: { ForSome place (λ it. IsVersionPlace map.now it) },
    ghost held: { ForSome place (λ it. ForSome after (λ keys.
        keys ≡ keys_after map.now it.key.now)) },
    ghost held_before: { ForSome place (λ it. ForSome before (λ keys.
        keys ≡ keys_before map.now it.key.now)) },
}

/// The first version that does not come before this key and number.
fn sought<'a>(
    alloc: Global,
    map: &'a BTreeMap<StoredKey, Versions>,
    key: LentKey,
    number: u64,
) -> Result<Option<VersionPlace<'a>>, AllocError>
    requires rising { HasRisingNumbers map.now }
    requires limits { HasLimits map.now }
    ensures placed { IfOk result (λ place. IfSome place (IsVersionPlace map.now)) }
    ensures first { IfOk result (λ place. IsFirst Forward (λ entry. MapHolds map.now entry
        × (EntryPrecedes Forward entry (spot (lent_key key.entry) number) → ⊥))
        (maybe_position place)) }
{
    if key.len() > MAX_KEY {
        let (first, _) = key.as_bytes().split_at(MAX_KEY);
        let beginning = LentKey::new(key.space(), first).to_stored(alloc)?;
        return Ok(front(map, Bound::Excluded(&beginning)));
    }
    let key = key.to_stored(alloc)?;
    Ok(from(map, &key, number))
}

impl<'a> MemCursor<'a> {
    pub(crate) fn new(alloc: Global, map: &'a BTreeMap<StoredKey, Versions>) -> MemCursor<'a>
        requires rising { HasRisingNumbers map.now }
        requires limits { HasLimits map.now }
        ensures map { result.map.now ≡ map.now }
        ensures off { (result.place ≡ None) × (result.has_failed ≡ false) }
    {
        MemCursor {
            alloc,
            map,
            place: None,
            after: None,
            before: None,
            has_failed: false,
        }
    }

    /// Goes to a place that was searched for.
    fn jump(&mut self, place: Option<VersionPlace<'a>>)
        requires { IfSome place (IsVersionPlace self.old.map.now) }
        ensures map { self.new.map.now ≡ self.old.map.now }
        ensures place { (self.new.place ≡ place.entry) × (self.new.has_failed ≡ false) }
    {
        self.after = None;
        self.before = None;
        self.place = place;
        self.has_failed = false;
    }
}

impl<'a> Cursor for MemCursor<'a> {
    ghost use Rattle.memtable.specs.CursorLaws.{cursor_fits, cursor_laws, mem_position};
    ghost use Rattle.memtable.specs.CursorLaws.{MemCursorHolds, mem_left, mem_most};

    type Source = ();

    ghost position = { mem_position };

    ghost Meant = { Unit {0} };

    ghost as_is = { λ _. tt };

    ghost is_intact = { λ _ _. Unit {0} };

    ghost holds = { λ _ c _. MemCursorHolds c };

    ghost is_sound = { λ _ _ _. Unit {0} };

    ghost keeps = { λ _ _. Unit {0} };

    ghost suits = { λ _ _ _. Unit {0} };

    ghost makes = { λ _ _ _. Unit {0} };

    ghost failures = { λ _. 0 };

    ghost left = { mem_left };

    ghost most = { mem_most };

    ghost steps_allocate = { ⊥ };

    ghost seeks_allocate = { Unit {0} };

    fn valid(&self) -> bool {
        self.place.is_some()
    }

    fn key(&self) -> LentKey<'_> {
        match self.place {
            Some(place) => place.key.lent(),
            None => unreachable!(),
        }
    }

    fn number(&self) -> u64 {
        match self.place {
            Some(place) => place.versions.get(place.at).number,
            None => unreachable!(),
        }
    }

    fn value(&self) -> Option<&[u8]> {
        match self.place {
            Some(place) => match &place.versions.get(place.at).value {
                Some(value) => Some(value.as_bytes()),
                None => None,
            },
            None => unreachable!(),
        }
    }

    fn next(&mut self, _source: &mut ()) -> Result<(), CursorError> {
        let Some(place) = self.place else {
            return Err(CursorError::Failed);
        };
        let held = self.after.take();
        self.before = None;
        (self.place, self.after) = place.next(self.map, held);
        self.has_failed = false;
        Ok(())
    }

    fn prev(&mut self, _source: &mut ()) -> Result<(), CursorError> {
        let Some(place) = self.place else {
            return Err(CursorError::Failed);
        };
        let held = self.before.take();
        self.after = None;
        (self.place, self.before) = place.prev(self.map, held);
        self.has_failed = false;
        Ok(())
    }

    fn seek(&mut self, _source: &mut (), key: LentKey<'_>, number: u64) -> Result<(), CursorError> {
        self.place = None;
        self.has_failed = true;
        let place = sought(self.alloc, self.map, key, number)?;
        self.jump(place);
        Ok(())
    }

    fn first(&mut self, _source: &mut ()) -> Result<(), CursorError> {
        self.jump(front(self.map, Bound::Unbounded));
        Ok(())
    }

    fn last(&mut self, _source: &mut ()) -> Result<(), CursorError> {
        self.jump(back(self.map, Bound::Unbounded));
        Ok(())
    }

    ghost laws = { cursor_laws };

    ghost fits = { cursor_fits };
}
