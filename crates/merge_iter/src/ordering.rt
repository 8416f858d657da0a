//! The order of entries.
ghost use Rattle.std.specs.Prelude.{◌≡◌};
ghost use Rattle.byte_fields.specs.{lent_key};
ghost use Rattle.merge_iter.specs.Order.{entry_cmp, spot};

use byte_fields::LentKey;
use std::cmp::Ordering;

/// The order of two entries with these keys and numbers. Their values have no part in it.
pub fn order(key: LentKey, number: u64, other_key: LentKey, other_number: u64) -> Ordering
    ensures { result ≡ entry_cmp (spot (lent_key key.entry) number)
        (spot (lent_key other_key.entry) other_number) }
{
    key.cmp(other_key).then(other_number.cmp(&number))
}
