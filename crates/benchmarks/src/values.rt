// The values of benchmarks: stretches of a text that could be compressed to half.
ghost use Rattle.std.specs.Prelude.{◌≡◌, ◌+◌, ◌<◌, ◌⊎◌, IfErr, IfOk, OnErr, OnOk, length};
ghost use Rattle.kv_types.specs.declared.bounds.TheConstants.{MAX_VALUE};
ghost use Rattle.benchmarks.specs.Stretches.{behind_stretch, next_stretch, text_len};

use crate::Random;
use kv_types::{KvError, Value};
use std::alloc::{AllocError, Global};
use std::marker::Model;

/// The pieces of the text.
const PIECES: usize = 10_486;

/// Stretches of one length of a text, one behind the other.
#[derive(Drop)]
pub struct Values {
    text: Vec<u8>,
    // Where the next one begins.
    place: usize,
    length: usize,
}

impl Model for Values {
    ghost use Rattle.std.specs.Prelude.{◌≤◌, vec_len};
    ghost use Rattle.benchmarks.specs.Stretches.{Stretches};

    ghost Value = { Stretches };

    ghost view = { λ values. record {
      text = values.text.items;
      place = values.place;
      size = values.length;
    } };

    ghost invariant = { λ values. values.length ≤ vec_len values.text };
}

/// Appends 100 bytes: 50 at random from a space on, twice.
fn add_piece(text: &mut Vec<u8>, random: &mut Random) -> Result<(), AllocError>
    ensures { OnOk result (length text.new.items ≡ length text.old.items + 100) }
{
    let mut half = [0u8; 50];
    for byte in &mut half {
        *byte = 32 + random.below(95) as u8;
    }
    text.extend_from_slice(&half)?;
    text.extend_from_slice(&half)
}

impl Values {
    /// Values of this length, of a text of 1,048,600 bytes. `ValueTooLong` refuses a length above
    /// it, and nothing else but want of memory is refused.
    pub fn new(alloc: Global, length: usize) -> Result<Values, KvError>
        ensures made { IfOk result (λ values. (values.place ≡ 0) × (values.size ≡ length)) }
        ensures text { IfOk result (λ values. text_len values ≡ 1048600) }
        ensures refused { IfErr result (λ e. (e ≡ KvError.Memory)
            ⊎ ((e ≡ KvError.ValueTooLong) × (1048600 < length))) }
    {
        let mut random = Random::new(301);
        let mut text = Vec::new(alloc);
        for _ in 0..PIECES {
            add_piece(&mut text, &mut random)?;
        }
        if text.len() < length {
            return Err(KvError::ValueTooLong);
        }
        Ok(Values {
            text,
            place: 0,
            length,
        })
    }

    /// The next value, at the text's beginning again where it ends too early. After an `Err`
    /// nothing has changed.
    pub fn next(&mut self, alloc: Global) -> Result<Value, KvError>
        ensures value { IfOk result (λ value. value ≡ next_stretch self.old) }
        ensures size { IfOk result (λ value. length value ≡ self.old.size) }
        ensures behind { OnOk result (self.new ≡ behind_stretch self.old) }
        ensures err { OnErr result (self.new ≡ self.old) }
        ensures refused { IfErr result
            (λ e. (e ≡ KvError.Memory)
            ⊎ ((e ≡ KvError.ValueTooLong) × (MAX_VALUE < self.old.size))) }
    {
        let begin = if self.text.len() - self.length < self.place {
            0
        } else {
            self.place
        };
        let end = begin + self.length;
        let bytes = self.text[begin..end].to_vec(alloc)?;
        let value = Value::new(bytes)?;
        self.place = end;
        Ok(value)
    }
}
