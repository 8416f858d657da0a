//! Laws of the definitions that contracts use. The functions do nothing, or return a constant:
//! their clauses are the laws.
ghost use Rattle.std.specs.Prelude.{◌≡◌, ◌↔◌, ℕ, List, true};
ghost use Rattle.kv_types.specs.Lists.{Part, is_part};
ghost use Rattle.kv_types.specs.Spelling.{SpellingsDiffer};
ghost use Rattle.kv_types.specs.Maps.{MapsAgree};
ghost use Rattle.kv_types.specs.Marks.{HeldIsLast};
ghost use Rattle.kv_types.specs.Content.{BatchContent};
ghost use Rattle.kv_types.specs.Entries.{RowsAreStored, ViewsAreMaps, ViewsAreMarks};
ghost use Rattle.kv_types.specs.Entries.{ViewsAreStored};
ghost use Rattle.kv_types.specs.Pages.{OnePage, PagesAgree};
ghost use Rattle.kv_types.specs.Bounds.{BoundsAre};
ghost use Rattle.kv_types.specs.Refusals.{error_number};
ghost use Rattle.kv_types.specs.Examples.{BatchExamples, EntryExamples};

use crate::{KvError, Number};

/// No spelling is a prefix of another, and no two batches have the same spelling.
pub fn spellings_differ()
    ensures { SpellingsDiffer }
{}

/// The map as a function has exactly the values that the last edits put.
pub fn maps_agree()
    ensures { MapsAgree }
{}

/// The view at a number of the entries of a list of batches shows at each stored key exactly what
/// so many first batches leave there: at the key of a row, what their map has.
pub fn views_are_maps()
    ensures stored { ViewsAreStored }
    ensures rows { ViewsAreMaps }
{}

/// What batches leave at the key of a row is what their map has.
pub fn rows_are_stored()
    ensures { RowsAreStored }
{}

/// The view at a number of the entries of lawful batches has of each client exactly the entry of
/// the last mark among so many first batches: its request, and the number of its batch.
pub fn views_are_marks()
    ensures { ViewsAreMarks }
{}

/// The mark that a list holds for a client is that of the last batch that bears one of its marks.
pub fn held_is_last()
    ensures { (list : List BatchContent) (client : ℕ) → HeldIsLast list client }
{}

/// A map has exactly one page in a range, and the page as a function is that one.
pub fn pages_agree()
    ensures agree { PagesAgree }
    ensures one { OnePage }
{}

/// The decision procedure for parts of lists accepts exactly the parts.
pub fn is_part_decides()
    ensures { (d c : List ℕ) → (is_part d c ≡ true) ↔ Part d c }
{}

/// The value of each bound as a number.
// law: of the constants in `bounds`
pub fn bounds_are()
    ensures { BoundsAre }
{}

/// The number of each refusal.
// law: of the values of `KvError`'s variants, which no clause can name
pub fn error_number_is(error: KvError) -> u8
    ensures { result ≡ error_number error }
{
    error as u8
}

/// The least number, which is 0.
// law: of `Number::ZERO`, which no clause can name
pub fn least_number() -> Number
    ensures { result ≡ 0 }
{
    Number::ZERO
}

/// Small batches, maps, pages and views, worked out.
pub fn examples()
    ensures batches { BatchExamples }
    ensures entries { EntryExamples }
{}
