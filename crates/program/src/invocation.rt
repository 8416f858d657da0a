//! What the program's words ask for.
ghost use Rattle.std.specs.Prelude.{◌≡◌, ◌≢◌, ℕ, List, false, map, codes, Ok, Err, Some, None};
ghost use Rattle.std.specs.Prelude.{IsOkAnd, MatchOption};
ghost use Rattle.std.specs.List.{list_any};
ghost use Rattle.program.specs.Invocations.{AsksForScript, has_option, is_dashed, is_dir_option};
ghost use Rattle.program.specs.Invocations.{is_named, lab_script, names_path, path_of};
ghost use Rattle.program.specs.Invocations.{loop_paths as loop_paths_of};

use clap::error::ErrorKind;
use clap::{Arg, ArgAction, ArgMatches, Command};
use std::alloc::{AllocError, Global};

/// What words that name `lab` ask for.
pub enum Invocation<'a> {
    /// A run of the script on standard input.
    Input,
    /// A run of the script at this path.
    Script(&'a str),
}

/// Why the words are no request.
#[derive(Clone, Copy)]
pub enum WordsError {
    Usage,
    Memory,
}

// ---- the words in their plain form

fn begins_with_dash(word: &str) -> bool
    ensures { result ≡ is_dashed word.now }
{
    match word.as_bytes() {
        [b'-', ..] => true,
        _ => false,
    }
}

/// Whether the word is a path where no `--` stands before it.
fn names_path(word: &str) -> bool
    ensures { result ≡ names_path word.now }
{
    word == "-" || !begins_with_dash(word)
}

/// The path of words in their plain form, behind this command.
fn path_behind<'a>(command: &str, words: &'a [&'a str]) -> Option<&'a str>
    ensures { MatchOption result (path_of command.now (map (λ w. w.now) words.now) ≡ None)
        (λ path. path_of command.now (map (λ w. w.now) words.now) ≡ Some path.now) }
{
    match words {
        [_, name, path] if *name == command && names_path(path) => Some(*path),
        [_, name, dashes, path] if *name == command && *dashes == "--" => Some(*path),
        [_, name, path, dashes] if *name == command && *dashes == "--" && names_path(path) => {
            Some(*path)
        }
        _ => None,
    }
}

/// Whether two words are an option of a folder, and a path.
fn is_dir_option(option: &str, folder: &str) -> bool
    ensures { result ≡ is_dir_option option.now folder.now }
{
    option == "--dir" && names_path(folder)
}

/// Script and folder of a loop's words in their plain form.
fn loop_paths<'a>(words: &'a [&'a str]) -> Option<(&'a str, &'a str)>
    ensures { MatchOption result (loop_paths_of (map (λ w. w.now) words.now) ≡ None)
        (λ it. loop_paths_of (map (λ w. w.now) words.now) ≡ Some (it.0.now, it.1.now)) }
{
    match words {
        [_, name, option, folder, script]
            if *name == "loop" && is_dir_option(option, folder) && names_path(script) => {
            Some((*script, *folder))
        }
        [_, name, script, option, folder]
            if *name == "loop" && is_dir_option(option, folder) && names_path(script) => {
            Some((*script, *folder))
        }
        _ => None,
    }
}

/// Whether any of the words begins with a dash.
fn any_dashed(words: &[&str]) -> bool
    ensures { result ≡ list_any is_dashed (map (λ w. w.now) words.now) }
{
    match words {
        [] => false,
        [first, later @ ..] => begins_with_dash(first) || any_dashed(later),
    }
}

/// Whether the parser decides on words that name this command and have no plain form.
fn has_option(command: &str, words: &[&str]) -> bool
    ensures { result ≡ has_option command.now (map (λ w. w.now) words.now) }
{
    match words {
        [_, name, behind @ ..] => *name == command && behind.len() > 1 && any_dashed(behind),
        _ => false,
    }
}

/// Whether the words name this command.
pub fn is_named(command: &str, words: &[&str]) -> bool
    ensures { result ≡ is_named command.now (map (λ w. w.now) words.now) }
{
    match words {
        [_, name, ..] => *name == command,
        _ => false,
    }
}

// ---- the parser

/// A word that has to be there.
fn required<'a>(alloc: Global, id: &'a str) -> Arg<'a> {
    Arg::new(alloc, id).required(true).action(ArgAction::Set)
}

/// A command with one word.
fn command<'a>(alloc: Global, name: &'a str, word: &'a str) -> Result<Command<'a>, AllocError> {
    Command::new(alloc, name)
        .disable_help_flag(true)
        .arg(required(alloc, word))
}

/// The grammar of words that ask for this command.
fn grammar<'a>(alloc: Global, command: Command<'a>) -> Result<Command<'a>, AllocError> {
    Command::new(alloc, "chainstore")
        .subcommand_required(true)
        .disable_help_flag(true)
        .disable_help_subcommand(true)
        .subcommand(command)
}

/// The grammar of words that ask for a command of one path.
fn path_grammar<'a>(
    alloc: Global,
    name: &'a str,
    word: &'a str,
) -> Result<Command<'a>, AllocError> {
    grammar(alloc, command(alloc, name, word)?)
}

/// The grammar of words that ask for a run in folders.
fn loop_grammar<'a>(alloc: Global) -> Result<Command<'a>, AllocError> {
    let folder = required(alloc, "dir").long("dir");
    grammar(alloc, command(alloc, "loop", "SCRIPT")?.arg(folder)?)
}

/// Why the parser takes no words.
fn words_error(error: clap::Error) -> WordsError {
    let is_memory = error.kind() == ErrorKind::OutOfMemory;
    drop(error);
    if is_memory {
        WordsError::Memory
    } else {
        WordsError::Usage
    }
}

/// What the parser finds in the words.
fn matches_of<'a>(
    grammar: Result<Command<'a>, AllocError>,
    words: &'a [&'a str],
) -> Result<ArgMatches<'a>, WordsError> {
    match grammar {
        Ok(grammar) => grammar.try_get_matches_from(words).map_err(words_error),
        Err(_) => Err(WordsError::Memory),
    }
}

/// The word with this id among what the parser matched behind a command.
fn found<'a>(matches: &ArgMatches<'a>, command: &str, id: &str) -> Result<&'a str, WordsError> {
    let word = match matches.subcommand_matches(command) {
        None => None,
        Some(inner) => inner.get_str(id),
    };
    word.ok_or(WordsError::Usage)
}

/// The path that the parser finds behind a command.
fn parsed_path<'a>(
    alloc: Global,
    name: &'a str,
    word: &'a str,
    words: &'a [&'a str],
) -> Result<&'a str, WordsError> {
    let matches = matches_of(path_grammar(alloc, name, word), words)?;
    let path = found(&matches, name, word);
    drop(matches);
    path
}

/// Script and folder that the parser finds behind `loop`.
fn parsed_loop<'a>(alloc: Global, words: &'a [&'a str]) -> Result<(&'a str, &'a str), WordsError> {
    let matches = matches_of(loop_grammar(alloc), words)?;
    let script = found(&matches, "loop", "SCRIPT");
    let folder = found(&matches, "loop", "dir");
    drop(matches);
    Ok((script?, folder?))
}

// ---- requests

/// The path behind this command: of words in their plain form it is found here, and other words
/// without an option have none, and a contract says it; the parser decides on all others.
pub fn path_request<'a>(
    alloc: Global,
    command: &'a str,
    word: &'a str,
    words: &'a [&'a str],
) -> Result<&'a str, WordsError>
    ensures none { path_of command.now (map (λ w. w.now) words.now) ≡ None →
        has_option command.now (map (λ w. w.now) words.now) ≡ false →
        result ≡ Err WordsError.Usage }
    ensures path { (path : List ℕ) → path_of command.now (map (λ w. w.now) words.now) ≡ Some path →
        IsOkAnd result (λ found. found.now ≡ path) }
{
    if let Some(path) = path_behind(command, words) {
        return Ok(path);
    }
    if !has_option(command, words) {
        return Err(WordsError::Usage);
    }
    parsed_path(alloc, command, word, words)
}

/// Script and folder of words that name `loop`, found as a path is.
pub fn loop_request<'a>(
    alloc: Global,
    words: &'a [&'a str],
) -> Result<(&'a str, &'a str), WordsError>
    ensures none { loop_paths_of (map (λ w. w.now) words.now) ≡ None →
        has_option (codes "loop") (map (λ w. w.now) words.now) ≡ false →
        result ≡ Err WordsError.Usage }
    ensures paths { (script folder : List ℕ) →
        loop_paths_of (map (λ w. w.now) words.now) ≡ Some (script, folder) →
        IsOkAnd result (λ it. (it.0.now ≡ script) × (it.1.now ≡ folder)) }
{
    if let Some(paths) = loop_paths(words) {
        return Ok(paths);
    }
    if !has_option("loop", words) {
        return Err(WordsError::Usage);
    }
    parsed_loop(alloc, words)
}

/// The request of words that name `lab`, or no command. The first word is the program's name.
pub fn invocation_of<'a>(alloc: Global, words: &'a [&'a str]) -> Result<Invocation<'a>, WordsError>
    ensures none { lab_script (map (λ w. w.now) words.now) ≡ None →
        has_option (codes "lab") (map (λ w. w.now) words.now) ≡ false →
        result ≡ Err WordsError.Usage }
    ensures input { lab_script (map (λ w. w.now) words.now) ≡ Some (codes "-") →
        result ≡ Ok Invocation.Input }
    ensures path { (path : List ℕ) → lab_script (map (λ w. w.now) words.now) ≡ Some path →
        path ≢ codes "-" → IsOkAnd result (λ request. AsksForScript request path) }
{
    match path_request(alloc, "lab", "SCRIPT", words)? {
        "-" => Ok(Invocation::Input),
        script => Ok(Invocation::Script(script)),
    }
}
