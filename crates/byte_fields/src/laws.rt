//! Laws of the definitions that contracts use. The functions do nothing: their clauses are the
//! laws.
ghost use Rattle.std.specs.Prelude.{◌≡◌};
ghost use Rattle.byte_fields.specs.Order.{IsBelow, IsStrictOrder, LessIsBelow};
ghost use Rattle.byte_fields.specs.declared.stored_key.TheConstants.{MAX_KEY};

/// Byte order is a strict order of all keys, and it is the order in which keys compare.
pub fn byte_order_is_strict()
    ensures strict { IsStrictOrder IsBelow }
    ensures less { LessIsBelow }
{}

/// The greatest length of a key as a number.
// law: of the constant `MAX_KEY`
pub fn longest_key_is()
    ensures { MAX_KEY ≡ 1024 }
{}
