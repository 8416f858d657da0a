// Lists of ids, read from bytes.
ghost use Rattle.std.specs.Prelude.{◌<◌, ◌*◌, length, IfOk, MatchOption};
ghost use Rattle.configurations.specs.Spelling.{HasIds};

use std::alloc::{AllocError, Global};

/// So many ids at the front of the bytes, and the bytes behind them, unless there are fewer.
pub fn ids_of(
    alloc: Global,
    count: u8,
    bytes: &[u8],
) -> Result<Option<(Vec<u16>, &[u8])>, AllocError>
    ensures { IfOk result (λ found. MatchOption found (length bytes.now < count * 2)
        (λ x. HasIds bytes.now count x.0.items x.1.now)) }
{
    let mut ids = Vec::new(alloc);
    let mut rest = bytes;
    for _ in 0..count {
        let [high, low, after @ ..] = rest else {
            return Ok(None);
        };
        ids.push(u16::from_be_bytes([*high, *low]))?;
        rest = after;
    }
    Ok(Some((ids, rest)))
}
