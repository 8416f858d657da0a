// The order of keys, and which tables' ranges hold a key.
ghost use Rattle.std.specs.Prelude.{◌≡◌};
ghost use Rattle.std.specs.List.{list_any};
ghost use Rattle.std.specs.Ordering.{is_lt};
ghost use Rattle.byte_fields.specs.{lent_key, stored_cmp};
ghost use Rattle.compaction.specs.Survivors.{line_holds};

use byte_fields::LentKey;
use version_edits::TableLine;

// Whether the first key is below the second.
pub(crate) fn is_below(a: LentKey, b: LentKey) -> bool
    ensures { result ≡ is_lt (stored_cmp (lent_key a.entry) (lent_key b.entry)) }
{
    a.cmp(b).is_lt()
}

// Whether the range of a table holds the key.
fn line_holds(key: LentKey, line: &TableLine) -> bool
    ensures { result ≡ line_holds (lent_key key.entry) line.now }
{
    !is_below(key, line.least.lent()) && !is_below(line.greatest.lent(), key)
}

// Whether the range of one of these tables does.
pub(crate) fn any_holds(key: LentKey, lines: &[TableLine]) -> bool
    ensures { result ≡ list_any (line_holds (lent_key key.entry)) lines.now }
{
    lines.iter().any(|line| line_holds(key, line))
}
