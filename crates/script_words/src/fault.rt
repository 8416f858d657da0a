//! The words of a fault at a statement's end.
ghost use Rattle.std.specs.Prelude.{◌≡◌, ◌==◌, ◌∷◌, [], true, false, not, map, length, position};
ghost use Rattle.std.specs.Prelude.{MatchOption, IfOk};
ghost use Rattle.script_words.specs.Words.{begins_fault, has_fault, before_fault, from_fault};
ghost use Rattle.script_words.specs.FaultWords.{FaultCanBeSaid, IsFault, is_fault};
ghost use Rattle.script_words.specs.FaultWords.{may_bear_fault};
ghost use Rattle.script_words.specs.FaultWords.{ReadsFault};

use crate::error::ScriptError;
use crate::junk::junk_of;
use crate::word::positive_number;
use disk::Fault;
use std::alloc::{AllocError, Global};

/// Whether a word begins a fault.
fn begins(word: &[u8]) -> bool
    ensures { result ≡ begins_fault word.now }
{
    matches!(word, [b'!', ..])
}

/// Where the first word that begins a fault stands.
fn place_of_fault(words: &[&[u8]]) -> Option<usize>
    ensures { result ≡ position (λ w. begins_fault w.now) words.now }
{
    words.iter().position(|word| begins(word))
}

/// The words before the first that begins a fault, and the others.
pub fn split_fault<'a, 'b>(words: &'b [&'a [u8]]) -> (&'b [&'a [u8]], &'b [&'a [u8]])
    ensures before { map (λ w. w.now) result.0.now ≡ before_fault (map (λ w. w.now) words.now) }
    ensures behind { map (λ w. w.now) result.1.now ≡ from_fault (map (λ w. w.now) words.now) }
    ensures has { has_fault (map (λ w. w.now) words.now) ≡ not (length result.1.now == 0) }
{
    match place_of_fault(words) {
        None => (words, &[]),
        Some(place) => (&words[..place], &words[place..]),
    }
}

/// The fault of two words.
fn fail_of(name: &[u8], call: &[u8]) -> Option<Fault>
    ensures { MatchOption result (is_fault (name.now ∷ call.now ∷ []) ≡ false) (λ fault.
        (is_fault (name.now ∷ call.now ∷ []) ≡ true) × FaultCanBeSaid fault
        × IsFault fault (name.now ∷ call.now ∷ [])) }
{
    if name != b"!fail".as_slice() {
        return None;
    }
    Some(Fault::Fail(positive_number(call)?))
}

/// The fault of three words.
fn stop_of(
    alloc: Global,
    name: &[u8],
    call: &[u8],
    junk: &[u8],
) -> Result<Option<Fault>, AllocError>
    ensures { IfOk result (λ found. MatchOption found
        (is_fault (name.now ∷ call.now ∷ junk.now ∷ []) ≡ false) (λ fault.
        (is_fault (name.now ∷ call.now ∷ junk.now ∷ []) ≡ true) × FaultCanBeSaid fault
        × IsFault fault (name.now ∷ call.now ∷ junk.now ∷ []))) }
{
    if name != b"!stop".as_slice() {
        return Ok(None);
    }
    let Some(call) = positive_number(call) else {
        return Ok(None);
    };
    match junk_of(alloc, junk)? {
        None => Ok(None),
        Some(junk) => Ok(Some(Fault::Stop(call, junk))),
    }
}

/// The fault that words spell.
fn fault_of(alloc: Global, words: &[&[u8]]) -> Result<Option<Fault>, AllocError>
    ensures { IfOk result (λ found. MatchOption found
        (is_fault (map (λ w. w.now) words.now) ≡ false) (λ fault.
        (is_fault (map (λ w. w.now) words.now) ≡ true) × FaultCanBeSaid fault
        × IsFault fault (map (λ w. w.now) words.now))) }
{
    match words {
        [name, call] => Ok(fail_of(name, call)),
        [name, call, junk] => stop_of(alloc, name, call, junk),
        _ => Ok(None),
    }
}

/// Whether a statement of this name may bear a fault.
fn may_bear(name: &[u8]) -> bool
    ensures { result ≡ may_bear_fault name.now }
{
    name != b"stop".as_slice()
        && name != b"flow".as_slice()
        && name != b"settle".as_slice()
        && name != b"show".as_slice()
}

/// The fault that a statement of this name bears, by the words behind its own. Where faults may not
/// be spelled, any word is a bad fault.
pub fn fault_behind(
    alloc: Global,
    faults: bool,
    name: &[u8],
    words: &[&[u8]],
) -> Result<Fault, ScriptError>
    ensures { ReadsFault faults name.now (map (λ w. w.now) words.now) result }
{
    if words.is_empty() {
        return Ok(Fault::None);
    }
    if !may_bear(name) || !faults {
        return Err(ScriptError::BadFault);
    }
    fault_of(alloc, words)?.ok_or(ScriptError::BadFault)
}
