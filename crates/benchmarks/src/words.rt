// What the program's words ask for.
ghost use Rattle.std.specs.Prelude.{◌<◌, ◌≤◌, IfSome, length};
ghost use Rattle.benchmarks.specs.Words.{AreInRange};

use kv_types::bounds::MAX_VALUE;

/// The benchmarks of words that name none.
pub const ALL_NAMES: &str = "fillseq,fillsync,fillrandom,overwrite,readrandom,readmissing,\
readseq,readreverse,seekrandom,compact,open,chainsubmit";

/// The greatest number of keys.
const MAX_KEYS: u64 = 1_000_000_000;

/// What the words ask for.
#[derive(Clone, Copy)]
pub struct Words<'a> {
    /// The folder; empty where the words name none.
    pub folder: &'a str,
    /// The number of keys, and of operations.
    pub keys: u64,
    /// The length of a value in bytes.
    pub value: u64,
    /// The names of the benchmarks, with commas between.
    pub names: &'a str,
    /// Whether the table has times.
    pub times: bool,
}

/// The number that a word is, up to this one.
fn number(word: &str, most: u64) -> Option<u64>
    ensures { IfSome result (λ number. number ≤ most) }
{
    match word.parse::<u64>() {
        Ok(number) if number <= most => Some(number),
        _ => None,
    }
}

/// What the words ask for, with this option.
fn with<'a>(mut words: Words<'a>, option: &str, word: &'a str) -> Option<Words<'a>>
    ensures { AreInRange words.entry.keys words.entry.value → IfSome result
        (λ it. AreInRange it.keys it.value) }
{
    match option {
        "--dir" => words.folder = word,
        "--num" => words.keys = number(word, MAX_KEYS)?,
        "--value" => words.value = number(word, MAX_VALUE as u64)?,
        "--benchmarks" => words.names = word,
        "--times" if word == "no" => words.times = false,
        _ => return None,
    }
    Some(words)
}

/// What these words ask for, behind the program's name: options, each with its word, and a folder
/// among them. There are at most 10^9 keys, and a value has at most 16,384 bytes.
pub fn read_words(words: &[String]) -> Option<Words<'_>>
    ensures folder { IfSome result (λ it. 0 < length it.folder.now) }
    ensures numbers { IfSome result (λ it. AreInRange it.keys it.value) }
{
    let mut read = Words {
        folder: "",
        keys: 100_000,
        value: 100,
        names: ALL_NAMES,
        times: true,
    };
    for pair in words.get(1..)?.chunks(2) {
        match pair {
            [option, word] => read = with(read, option.as_str(), word.as_str())?,
            _ => return None,
        }
    }
    if read.folder.is_empty() {
        return None;
    }
    Some(read)
}
