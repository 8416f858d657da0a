//! Readers of numbers and texts, which borrow what they read. Those of numbers are inlined, since
//! the order of keys and each entry that is read call them.
ghost use Rattle.std.specs.Prelude.{◌≤◌, length, IfSome};
ghost use Rattle.std.specs.Int.{w16, w32, w64};
ghost use Rattle.byte_fields.specs.Texts.{text_at};
ghost use Rattle.byte_fields.specs.Readers.{ReadsFront, number_at};

/// The number in the first two bytes, and the bytes behind it.
#[inline(always)]
pub fn read_u16(bytes: &[u8]) -> Option<(u16, &[u8])>
    ensures { ReadsFront (λ x. (x.0, x.1.now)) result (number_at w16 bytes.now) }
{
    match bytes {
        [a, b, rest @ ..] => Some((u16::from_be_bytes([*a, *b]), rest)),
        _ => None,
    }
}

/// The number in the first four bytes, and the bytes behind it.
#[inline(always)]
pub fn read_u32(bytes: &[u8]) -> Option<(u32, &[u8])>
    ensures { ReadsFront (λ x. (x.0, x.1.now)) result (number_at w32 bytes.now) }
{
    match bytes {
        [a, b, c, d, rest @ ..] => Some((u32::from_be_bytes([*a, *b, *c, *d]), rest)),
        _ => None,
    }
}

/// The number in the first eight bytes, and the bytes behind it.
#[inline(always)]
pub fn read_u64(bytes: &[u8]) -> Option<(u64, &[u8])>
    ensures { ReadsFront (λ x. (x.0, x.1.now)) result (number_at w64 bytes.now) }
{
    match bytes {
        [a, b, c, d, e, f, g, h, rest @ ..] => {
            Some((u64::from_be_bytes([*a, *b, *c, *d, *e, *f, *g, *h]), rest))
        }
        _ => None,
    }
}

/// The text behind its length of two bytes, if it has at most `limit` bytes, and the bytes behind
/// it.
#[tactic(auto, unfolding(crate::specs::Texts::text_at))]
pub fn read_text(limit: usize, bytes: &[u8]) -> Option<(&[u8], &[u8])>
    ensures text { ReadsFront (λ x. (x.0.now, x.1.now)) result (text_at limit bytes.now) }
    ensures limit { IfSome result (λ x. length x.0.now ≤ limit) }
{
    let (len, rest) = read_u16(bytes)?;
    let len = len as usize;
    if limit < len {
        return None;
    }
    if rest.len() < len {
        return None;
    }
    Some(rest.split_at(len))
}
