//! The lines of a text, and the words of a line.
ghost use Rattle.std.specs.Prelude.{◌≡◌, ◌≢◌, ◌<◌, ◌++◌, ◌∷◌, ℕ, length, map, slice_index};
ghost use Rattle.std.specs.Prelude.{IfSome, IfNone, MatchOption, OnOk};
ghost use Rattle.std.specs.Iterator.{YieldsFirstRef, item_count};
ghost use Rattle.script_words.specs.Lines.{HasNoFeed, script_lines, words_of};

use memchr::memchr;
use std::alloc::AllocError;

// Where the first line feed stands.
fn end_of_line(text: &[u8]) -> Option<usize>
    ensures none { IfNone result ((k : ℕ) → k < length text.now → slice_index text.now k ≢ 10) }
    ensures some { IfSome result (λ i. (i < length text.now) × (slice_index text.now i ≡ 10)) }
    ensures first { IfSome result (λ i. (k : ℕ) → k < i → slice_index text.now k ≢ 10) }
{
    memchr(b'\n', text)
}

/// The first line of a text that a line feed ends, and what follows it.
pub fn ended_line(text: &[u8]) -> Option<(&[u8], &[u8])>
    ensures { MatchOption result (HasNoFeed text.now) (λ cut.
        HasNoFeed cut.0.now × (text.now ≡ cut.0.now ++ 10 ∷ cut.1.now)) }
{
    let end = end_of_line(text)?;
    Some((&text[..end], &text[end + 1..]))
}

// The first line of a text, and what follows it.
fn first_line(text: &[u8]) -> (&[u8], &[u8])
    requires { 0 < length text.now }
    ensures { script_lines text.now ≡ result.0.now ∷ script_lines result.1.now }
{
    match ended_line(text) {
        None => (text, &[]),
        Some(cut) => cut,
    }
}

/// The lines of a text.
#[derive(Drop)]
pub struct ScriptLines<'a>(pub &'a [u8]);

impl<'a> Iterator for ScriptLines<'a> {
    type Item = &'a [u8];

    ghost next_gives = { YieldsFirstRef (λ s. script_lines s.0.now) };

    ghost remaining = { item_count (λ s. script_lines s.0.now) };

    fn next(&mut self) -> Option<&'a [u8]> {
        if self.0.is_empty() {
            return None;
        }
        let (line, rest) = first_line(self.0);
        self.0 = rest;
        Some(line)
    }
}

/// The words of a line, in place of what `words` has.
pub fn put_words<'a>(line: &'a [u8], words: &mut Vec<&'a [u8]>) -> Result<(), AllocError>
    ensures { OnOk result (map (λ w. w.now) words.new.items ≡ words_of line.now) }
{
    words.clear();
    for word in line.split(|b| *b == b' ') {
        words.push(word)?;
    }
    Ok(())
}
