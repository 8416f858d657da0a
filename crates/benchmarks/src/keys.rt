// The keys of benchmarks: a number's 16 digits.
ghost use Rattle.std.specs.Prelude.{◌≡◌, ◌<◌, ◌++◌, ◌∷◌, [], IfErr, IfOk};
ghost use Rattle.benchmarks.specs.Keys.{digit_of, eight_digits, key_text};

use kv_types::{Key, KvError};
use std::alloc::Global;

/// The digit of a number at the place of this unit, as text.
fn digit(number: u64, unit: u64) -> u8
    requires { 0 < unit }
    ensures { result ≡ digit_of number unit }
{
    b'0' + (number / unit % 10) as u8
}

/// The last eight digits of a number, as text.
fn eight_digits(number: u64) -> [u8; 8]
    ensures { result ≡ eight_digits number }
{
    [
        digit(number, 10_000_000),
        digit(number, 1_000_000),
        digit(number, 100_000),
        digit(number, 10_000),
        digit(number, 1_000),
        digit(number, 100),
        digit(number, 10),
        digit(number, 1),
    ]
}

/// The last 16 digits of a number, as text.
fn digits(alloc: Global, number: u64) -> Result<Vec<u8>, KvError>
    ensures text { IfOk result (λ text. text.items ≡ key_text number) }
    ensures refused { IfErr result (λ e. e ≡ KvError.Memory) }
{
    let mut text = Vec::with_capacity(alloc, 17)?;
    text.extend_from_slice(&eight_digits(number / 100_000_000))?;
    text.extend_from_slice(&eight_digits(number))?;
    Ok(text)
}

/// The key of a number: its last 16 digits.
pub fn key(alloc: Global, number: u64) -> Result<Key, KvError>
    ensures key { IfOk result (λ key. key ≡ key_text number) }
    ensures refused { IfErr result (λ e. e ≡ KvError.Memory) }
{
    Key::new(digits(alloc, number)?)
}

/// A key that no number has, behind the key of this one: its last 16 digits and a dot.
pub fn missing_key(alloc: Global, number: u64) -> Result<Key, KvError>
    ensures key { IfOk result (λ key. key ≡ key_text number ++ 46 ∷ []) }
    ensures refused { IfErr result (λ e. e ≡ KvError.Memory) }
{
    let mut text = digits(alloc, number)?;
    text.push(b'.')?;
    Key::new(text)
}
