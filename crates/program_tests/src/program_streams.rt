// The program where a script can't be read to its end, or has none, where an output takes no more,
// and where streams are slow or keep what they get.
use crate::cases::{is_same, is_so};
use crate::streams::{Output, Source, Way};
use program::serve;
use std::alloc::Global;
use std::io::ErrorKind;
use std::process::Abort;

const WORDS: &[&str] = &["chainstore", "lab", "-"];

const SCRIPT: &[u8] = b"config 1\nsubmit 1 a=1\nget 1 a\n";

const TEXT: &[u8] = b"2: committed 1\n3: value 1 at 1\n";

// A script of statements of several lines, of one and of none, and a reply at an earlier line.
const CHAIN: &[u8] = b"config 1 2\nsubmit 1 a=1\nflow\nget 2 a\nflow\nrows 2 @ * 9\n";

const CHAIN_TEXT: &[u8] = b"2: #1 1>2 forward 0 1
3: #2 2>1 ack 0 1 1
2: committed 1
4: value 1 at 1
6: row a=1
6: rows 1 at 1
";

// How much of it has been written at the end of each statement.
const CHAIN_ENDS: &[usize] = &[22, 57, 73, 73, 99];

const UNWRITTEN: &[u8] = b"output: write\n";

// Whether the program ends with this status, and reports this.
fn ends(
    host: &HostRuntime,
    words: &[&str],
    (input, out): (&mut Source, &mut Output),
    (status, told): (u8, &[u8]),
) -> bool {
    let mut err = Output::new(host.alloc(), Way::All);
    let answer = serve(host, words, input, out, &mut err);
    let is_told = is_same(&err.taken, told);
    drop(err);
    answer == status && is_told
}

// Beginnings of a script before the error, its kind, and what is told of it. The half of a line
// that was read would be a statement of its own.
static UNREADABLE: [(&[u8], ErrorKind, &[u8]); 4] = [
    (b"", ErrorKind::Other, b"script: unreadable\n"),
    (
        b"config 1\nget 1 a",
        ErrorKind::Other,
        b"script: unreadable\n",
    ),
    (
        b"config 1\nget 1 a\n",
        ErrorKind::PermissionDenied,
        b"script: unreadable\n",
    ),
    (
        b"config 1\nget 1 a",
        ErrorKind::OutOfMemory,
        b"run: memory\n",
    ),
];

#[test]
fn a_script_that_breaks_off_is_not_run(rt: HostRuntime) {
    for (bytes, kind, told) in &UNREADABLE {
        let mut out = Output::new(rt.alloc(), Way::All);
        let mut input = Source::Broken(*bytes, *kind);
        let has_ended = ends(&rt, WORDS, (&mut input, &mut out), (1, *told));
        let is_well = has_ended && out.taken.is_empty();
        is_so(&rt, is_well, "a script without its end");
    }
}

// Bytes that come for ever, the most of them that are read, and what is told.
static ENDLESS: [(u8, usize, &[u8]); 2] = [
    (b'a', 300000, b"line 1: line too long\n"),
    (b'\n', 150000, b"line 100001: too many lines\n"),
];

#[test]
fn a_script_without_an_end_is_read_as_far_as_its_fault(rt: HostRuntime) {
    for (byte, most, told) in &ENDLESS {
        let mut out = Output::new(rt.alloc(), Way::All);
        let mut input = Source::Endless(*byte, 0);
        let has_ended = ends(&rt, WORDS, (&mut input, &mut out), (1, *told));
        let is_short = matches!(&input, Source::Endless(_, given) if *given <= *most);
        let is_read = has_ended && out.taken.is_empty() && is_short;
        is_so(&rt, is_read, "a script without an end");
    }
}

// Whether an output that takes so many bytes gets a beginning of the text, and the failure is told.
fn accepts(host: &HostRuntime, words: &[&str], script: &[u8], text: &[u8], room: usize) -> bool {
    let mut out = Output::new(host.alloc(), Way::Room(room));
    let mut input = Source::Sound(script);
    let has_ended = ends(host, words, (&mut input, &mut out), (1, UNWRITTEN));
    let is_beginning = out.taken.len() == room && text.starts_with(&out.taken);
    drop(out);
    has_ended && is_beginning
}

#[test]
fn an_output_accepts_a_beginning(rt: HostRuntime) {
    for room in 0..CHAIN_TEXT.len() {
        let is_accepted = accepts(&rt, WORDS, CHAIN, CHAIN_TEXT, room);
        is_so(&rt, is_accepted, "a beginning of the lines");
    }
}

// Whether the output is flushed with so many bytes, and at no other place.
fn is_flushed(host: &HostRuntime, words: &[&str], script: &[u8], places: &[usize]) -> bool {
    let mut out = Output::new(host.alloc(), Way::All);
    let mut input = Source::Sound(script);
    let has_ended = ends(host, words, (&mut input, &mut out), (0, b""));
    let is_there = out.flushes.as_slice() == places;
    drop(out);
    has_ended && is_there
}

// The text of each statement is flushed before the next begins: there is one flush for each, with
// exactly its text behind those before it.
#[test]
fn each_statement_is_flushed(rt: HostRuntime) {
    let is_so_flushed = is_flushed(&rt, WORDS, CHAIN, CHAIN_ENDS);
    is_so(&rt, is_so_flushed, "a flush behind each statement");
}

// A writer that keeps the bytes until it is flushed fails only then.
#[test]
fn an_output_is_flushed(rt: HostRuntime) {
    for (room, status, told) in [(8, 1, UNWRITTEN), (TEXT.len(), 0, b"".as_slice())] {
        let mut out = Output::new(rt.alloc(), Way::AtFlush(room));
        let mut input = Source::Sound(SCRIPT);
        let has_ended = ends(&rt, WORDS, (&mut input, &mut out), (status, told));
        let is_beginning = out.taken.len() == room && TEXT.starts_with(&out.taken);
        is_so(&rt, has_ended && is_beginning, "a flush");
    }
}

// A call that is interrupted is made again, and less than was asked for is no end.
#[test]
fn a_slow_reader_is_read_to_its_end(rt: HostRuntime) {
    let mut out = Output::new(rt.alloc(), Way::All);
    let mut input = Source::Slow(SCRIPT, false);
    let has_ended = ends(&rt, WORDS, (&mut input, &mut out), (0, b""));
    let is_all = has_ended && is_same(&out.taken, TEXT);
    is_so(&rt, is_all, "all of the script");
}

// Scripts, and what slow writers get of them: the status, and what stands on either output.
static SLOW: [(&[u8], u8, &[u8], &[u8]); 2] = [
    (SCRIPT, 0, TEXT, b""),
    (b"fly", 1, b"", b"line 1: unknown statement\n"),
];

fn slow_writer(host: &HostRuntime) -> Output {
    Output::new(host.alloc(), Way::Slow(false))
}

#[test]
fn a_slow_writer_gets_all(rt: HostRuntime) {
    for (script, status, text, told) in &SLOW {
        let (mut out, mut err) = (slow_writer(&rt), slow_writer(&rt));
        let mut input = Source::Sound(*script);
        let answer = serve(&rt, WORDS, &mut input, &mut out, &mut err);
        let has_all = is_same(&out.taken, *text) && is_same(&err.taken, *told);
        is_so(&rt, answer == *status && has_all, "all that is written");
    }
}
