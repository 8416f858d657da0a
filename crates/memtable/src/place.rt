//! Places among the versions of a map.

ghost use Rattle.std.specs.Prelude.{◌≡◌, IfSome};
ghost use Rattle.std.specs.Option.{ForSome};
ghost use Rattle.std.specs.BTreeMap.Range.{IsFromStart, IsUpToEnd};
ghost use Rattle.std.specs.Range.Bound.{bound_map};
ghost use Rattle.byte_fields.specs.{stored_cmp};
ghost use Rattle.merge_iter.specs.declared.direction.Direction.TheVariants.{Forward, Backward};
ghost use Rattle.merge_iter.specs.{EntryPrecedes, IsFirst, IfOn, spot};
ghost use Rattle.memtable.specs.Maps.{MapHolds, HasRisingNumbers};
ghost use Rattle.memtable.specs.Places.{IsVersionPlace, place_position, maybe_position};
ghost use Rattle.memtable.specs.Ranges.{keys_after, keys_before, IsPopped, IsPoppedBack};

use crate::version::Versions;
use byte_fields::StoredKey;
use std::collections::BTreeMap;
use std::collections::btree_map::Range;
use std::ops::Bound;

/// A version of a key in a map.
#[derive(Clone, Copy)]
pub struct VersionPlace<'a> {
    pub key: &'a StoredKey,
    pub versions: &'a Versions,
    pub at: usize,
}

/// The newest version of the first key from a bound on.
pub(crate) fn front<'a>(
    map: &'a BTreeMap<StoredKey, Versions>,
    start: Bound<&StoredKey>,
) -> Option<VersionPlace<'a>>
    ensures placed { IfSome result (IsVersionPlace map.now) }
    ensures first { HasRisingNumbers map.now → IsFirst Forward (λ entry. MapHolds map.now entry
        × IsFromStart stored_cmp (bound_map (λ x. x.now) start.entry) entry.key)
        (maybe_position result) }
{
    let (key, versions) = map.range((start, Bound::Unbounded)).next()?;
    let at = versions.older.len();
    Some(VersionPlace { key, versions, at })
}

/// The oldest version of the last key up to a bound.
pub(crate) fn back<'a>(
    map: &'a BTreeMap<StoredKey, Versions>,
    end: Bound<&StoredKey>,
) -> Option<VersionPlace<'a>>
    ensures placed { IfSome result (IsVersionPlace map.now) }
    ensures first { HasRisingNumbers map.now → IsFirst Backward (λ entry. MapHolds map.now entry
        × IsUpToEnd stored_cmp (bound_map (λ x. x.now) end.entry) entry.key)
        (maybe_position result) }
{
    let (key, versions) = map.range((Bound::Unbounded, end)).next_back()?;
    Some(VersionPlace {
        key,
        versions,
        at: 0,
    })
}

/// The newest version of the first key that is left.
fn first_of<'a>(keys: &mut Range<'a, StoredKey, Versions>) -> Option<VersionPlace<'a>>
    ensures { IsPopped keys.old keys.new result }
{
    let (key, versions) = keys.next()?;
    let at = versions.older.len();
    Some(VersionPlace { key, versions, at })
}

/// The oldest version of the last key that is left.
fn last_of<'a>(keys: &mut Range<'a, StoredKey, Versions>) -> Option<VersionPlace<'a>>
    ensures { IsPoppedBack keys.old keys.new result }
{
    let (key, versions) = keys.next_back()?;
    Some(VersionPlace {
        key,
        versions,
        at: 0,
    })
}

impl<'a> VersionPlace<'a> {
    /// The keys behind this one, if they are not at hand.
    fn keys_after(
        self,
        map: &'a BTreeMap<StoredKey, Versions>,
        held: Option<Range<'a, StoredKey, Versions>>,
    ) -> Range<'a, StoredKey, Versions>
        requires { ForSome held (λ keys. keys ≡ keys_after map.now self.key.now) }
        ensures { result ≡ keys_after map.now self.entry.key.now }
    {
        match held {
            Some(keys) => keys,
            None => map.range((Bound::Excluded(self.key), Bound::Unbounded)),
        }
    }

    /// The keys before this one, if they are not at hand.
    fn keys_before(
        self,
        map: &'a BTreeMap<StoredKey, Versions>,
        held: Option<Range<'a, StoredKey, Versions>>,
    ) -> Range<'a, StoredKey, Versions>
        requires { ForSome held (λ keys. keys ≡ keys_before map.now self.key.now) }
        ensures { result ≡ keys_before map.now self.entry.key.now }
    {
        match held {
            Some(keys) => keys,
            None => map.range((Bound::Unbounded, Bound::Excluded(self.key))),
        }
    }

    /// The next version, which is older, or of a greater key, and the keys behind it.
    pub(crate) fn next(
        self,
        map: &'a BTreeMap<StoredKey, Versions>,
        held: Option<Range<'a, StoredKey, Versions>>,
    ) -> (
        Option<VersionPlace<'a>>,
        Option<Range<'a, StoredKey, Versions>>,
    )
        requires placed { IsVersionPlace map.now self }
        requires held { ForSome held (λ keys. keys ≡ keys_after map.now self.key.now) }
        ensures placed { IfSome result.0 (IsVersionPlace map.now) }
        ensures first { HasRisingNumbers map.now → IfOn (place_position self.entry)
            (λ here. IsFirst Forward
            (λ entry. MapHolds map.now entry × EntryPrecedes Forward here entry)
            (maybe_position result.0)) }
        ensures held { ForSome result.0 (λ place. ForSome result.1 (λ keys.
            keys ≡ keys_after map.now place.key.now)) }
    {
        if self.at > 0 {
            let older = VersionPlace {
                key: self.key,
                versions: self.versions,
                at: self.at - 1,
            };
            return (Some(older), held);
        }
        let _ = map.len(); // law: the keys ascend
        let mut keys = self.keys_after(map, held);
        let next = first_of(&mut keys);
        (next, Some(keys))
    }

    /// The version before, which is newer, or of a lesser key, and the keys before it.
    pub(crate) fn prev(
        self,
        map: &'a BTreeMap<StoredKey, Versions>,
        held: Option<Range<'a, StoredKey, Versions>>,
    ) -> (
        Option<VersionPlace<'a>>,
        Option<Range<'a, StoredKey, Versions>>,
    )
        requires placed { IsVersionPlace map.now self }
        requires held { ForSome held (λ keys. keys ≡ keys_before map.now self.key.now) }
        ensures placed { IfSome result.0 (IsVersionPlace map.now) }
        ensures first { HasRisingNumbers map.now → IfOn (place_position self.entry) (λ here.
            IsFirst Backward (λ entry. MapHolds map.now entry × EntryPrecedes Backward here entry)
            (maybe_position result.0)) }
        ensures held { ForSome result.0 (λ place. ForSome result.1 (λ keys.
            keys ≡ keys_before map.now place.key.now)) }
    {
        if self.at < self.versions.older.len() {
            let newer = VersionPlace {
                key: self.key,
                versions: self.versions,
                at: self.at + 1,
            };
            return (Some(newer), held);
        }
        let _ = map.len(); // law: the keys ascend
        let mut keys = self.keys_before(map, held);
        let prev = last_of(&mut keys);
        (prev, Some(keys))
    }
}

/// The first version that does not come before this key and number.
pub(crate) fn from<'a>(
    map: &'a BTreeMap<StoredKey, Versions>,
    key: &StoredKey,
    number: u64,
) -> Option<VersionPlace<'a>>
    ensures placed { HasRisingNumbers map.now → IfSome result (IsVersionPlace map.now) }
    ensures first { HasRisingNumbers map.now → IsFirst Forward (λ entry. MapHolds map.now entry
        × (EntryPrecedes Forward entry (spot key.now number) → ⊥)) (maybe_position result) }
{
    match map.get_key_value(key) {
        Some((stored, versions)) => match versions.last_up_to(number) {
            Some(at) => Some(VersionPlace {
                key: stored,
                versions,
                at,
            }),
            None => front(map, Bound::Excluded(key)),
        },
        None => front(map, Bound::Excluded(key)),
    }
}
