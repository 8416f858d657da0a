//! The search for a block by the lines of an index.
ghost use Rattle.std.specs.Prelude.{◌≡◌, ◌≤◌, length, map};
ghost use Rattle.std.specs.Ordering.{is_lt};
ghost use Rattle.byte_fields.specs.{lent_key};
ghost use Rattle.merge_iter.specs.{entry_cmp, spot};
ghost use Rattle.table_format.specs.{AreRising, end_spot};
ghost use Rattle.sorted_table.specs.Searches.{IsLinePlace};

use byte_fields::LentKey;
use merge_iter::order;
use table_format::IndexLine;

/// Whether the last entry of the line's block comes before the key and number.
pub fn ends_before(line: &IndexLine, key: LentKey, number: u64) -> bool
    ensures { result ≡ is_lt (entry_cmp (end_spot line.now) (spot (lent_key key.entry) number)) }
{
    order(line.key.lent(), line.number, key, number).is_lt()
}

/// How many lines have a block that ends before the key and number. The next line is that of the
/// block where they would stand.
pub fn line_place(lines: &[IndexLine], key: LentKey, number: u64) -> usize
    ensures within { result ≤ length lines.now }
    ensures place { AreRising (map end_spot lines.now) →
        IsLinePlace lines.now (spot (lent_key key.entry) number) result }
{
    lines.partition_point(|line| ends_before(line, key, number))
}
