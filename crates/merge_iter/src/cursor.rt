//! What each cursor does.
ghost use Rattle.std.specs.Prelude.{Bool, ◌≡◌, ◌↔◌, ℕ, IsTrue, option_map};
ghost use Rattle.byte_fields.specs.{lent_key};
ghost use Rattle.kv_types.specs.{Entry};
ghost use Rattle.merge_iter.specs.Order.{spot};
ghost use Rattle.merge_iter.specs.Positions.{Position, AtEnd, At, IsOn, IfOn};
ghost use Rattle.merge_iter.specs.TableEntries.{IsTableEntry};
ghost use Rattle.merge_iter.specs.Moves.{CanStep, MovesBy, StepsBy, AreCursorLaws};
ghost use Rattle.merge_iter.specs.declared.direction.Direction.{Direction as Way};
ghost use Rattle.merge_iter.specs.declared.direction.Direction.TheVariants.{Forward, Backward};

use crate::error::CursorError;
use byte_fields::LentKey;

/// A place in a sorted set of entries: keys rise, and the numbers of one key fall.
///
/// A cursor stands on an entry, on none, or on none since a refusal. Each move is lent the source
/// that the entries are read from. An error of a move says why: `Disk` only where the device behind
/// the source failed in this call, `Damaged` only where the source is not what the cursor was made
/// for, `Memory` only where such a move may allocate, `Failed` exactly where `next` or `prev` is
/// called behind a refusal. After an error the cursor stands on no entry.
pub trait Cursor {
    /// What the entries are read from; `()` where they are in memory.
    type Source;

    /// Where the cursor stands.
    ghost position: { Self → Position };

    /// What a source was meant to hold, before any part of it was damaged.
    ghost Meant: { Type 0 };

    /// The source as it is, taken for what it was meant to be.
    ghost as_is: { Self.Source → Meant };

    /// The source has all that it was meant to hold: no part is damaged.
    ghost is_intact: { Meant → Self.Source → Type 0 };

    /// The entries that the cursor goes through, of a source that was meant to hold this.
    ghost holds: { Meant → Self → Self.Source → Entry → Type 0 };

    /// The cursor was made for what the source was meant to hold, and each part of the source that
    /// is not damaged is as it was meant. Each clause on entries has this as its premise.
    ghost is_sound: { Meant → Self → Self.Source → Type 0 };

    /// The second source is what moves of any cursors may make of the first.
    ghost keeps: { Self.Source → Self.Source → Type 0 };

    /// What one move makes of a source; the first says whether it reports the device.
    ghost makes: { Bool → Self.Source → Self.Source → Type 0 };

    /// The second source serves the cursor as the first does, whatever else differs in it.
    ghost suits: { Self → Self.Source → Self.Source → Type 0 };

    /// How often the device behind the source has failed.
    ghost failures: { Self.Source → ℕ };

    /// How many steps are left in a direction, at most.
    ghost left: { Self → Way → ℕ };

    /// How many steps there are from one end to the other, at most.
    ghost most: { Self → ℕ };

    /// Whether `next`, `prev`, `first` and `last` may allocate memory.
    ghost steps_allocate: { Type 0 };

    /// Whether `seek` may allocate memory.
    ghost seeks_allocate: { Type 0 };

    /// Whether the cursor stands on an entry.
    fn valid(&self) -> bool
        ensures { IsTrue result ↔ IsOn (position self.now) };

    /// The key of the entry.
    fn key(&self) -> LentKey<'_>
        requires { IsOn (position self.now) }
        ensures { IfOn (position self.now) (λ entry. lent_key result ≡ entry.key) };

    /// The number of the entry.
    fn number(&self) -> u64
        requires { IsOn (position self.now) }
        ensures { IfOn (position self.now) (λ entry. result ≡ entry.number) };

    /// The value of the entry, or `None` if it is a deletion.
    fn value(&self) -> Option<&[u8]>
        requires { IsOn (position self.now) }
        ensures { IfOn (position self.now)
            (λ entry. option_map (λ value. value.now) result ≡ entry.value) };

    /// Steps to the next entry, or off the end.
    fn next(&mut self, source: &mut Self::Source) -> Result<(), CursorError>
        requires { CanStep (position self.old) }
        ensures { StepsBy is_intact holds is_sound suits keeps makes failures position most left
            steps_allocate Forward self.old source.old self.new source.new result };

    /// Steps to the entry before, or off the end.
    fn prev(&mut self, source: &mut Self::Source) -> Result<(), CursorError>
        requires { CanStep (position self.old) }
        ensures { StepsBy is_intact holds is_sound suits keeps makes failures position most left
            steps_allocate Backward self.old source.old self.new source.new result };

    /// Moves to the first entry that does not come before this key and number.
    fn seek(
        &mut self,
        source: &mut Self::Source,
        key: LentKey<'_>,
        number: u64,
    ) -> Result<(), CursorError>
        ensures { MovesBy is_intact holds is_sound suits keeps makes failures position most
            seeks_allocate Forward (At (spot (lent_key key.entry) number))
            self.old source.old self.new source.new result };

    /// Moves to the first entry.
    fn first(&mut self, source: &mut Self::Source) -> Result<(), CursorError>
        ensures { MovesBy is_intact holds is_sound suits keeps makes failures position most
            steps_allocate Forward AtEnd self.old source.old self.new source.new result };

    /// Moves to the last entry.
    fn last(&mut self, source: &mut Self::Source) -> Result<(), CursorError>
        ensures { MovesBy is_intact holds is_sound suits keeps makes failures position most
            steps_allocate Backward AtEnd self.old source.old self.new source.new result };

    /// What all cursors of a kind have in common: a move of one leaves the others sound, no two
    /// entries share key and number, and `left` is at most `most`.
    ghost laws: { AreCursorLaws as_is is_intact holds is_sound suits keeps makes left most };

    /// An entry on which a cursor stands keeps the limits of a table's entry, whatever the source.
    ghost fits: { (cursor : Self) → IfOn (position cursor) IsTableEntry };
}
