// What the program writes of a store in a folder, where the output takes no more, and where it is
// flushed.
use crate::cases::{is_same, is_so};
use crate::streams::{Output, Way};
use program::serve;
use std::alloc::Global;
use std::process::Abort;
use std::{env, fs};

const UNWRITTEN: &[u8] = b"output: write\n";

// Whether the program ends so with this input, with this status, and reports this.
fn ends(
    host: &HostRuntime,
    words: &[&str],
    (mut input, out): (&[u8], &mut Output),
    (status, told): (u8, &[u8]),
) -> bool {
    let mut err = Output::new(host.alloc(), Way::All);
    let answer = serve(host, words, &mut input, out, &mut err);
    let is_told = is_same(&err.taken, told);
    drop(err);
    answer == status && is_told
}

// A path below this one.
fn below(rt: &impl Abort, host: &HostRuntime, place: &str, name: &str) -> String {
    format!(in host.alloc(); "{place}/{name}").expect(rt, "memory")
}

// Removes a folder with all that is in it.
fn clear(rt: &impl Abort, host: &HostRuntime, place: &str) {
    if fs::exists(host, place).expect(rt, "a path") {
        fs::remove_dir_all(host, place).expect(rt, "a removal");
    }
}

// Runs the script at nodes in the folders below one of this name, which it answers.
fn run_in_folders(rt: &impl Abort, host: &HostRuntime, name: &str, script: &[u8]) -> String {
    let room = env::temp_dir(host).expect(rt, "a folder for files of tests");
    let place = below(rt, host, room.as_str(), name);
    clear(rt, host, place.as_str());
    let words = ["chainstore", "loop", "-", "--dir", place.as_str()];
    let mut out = Output::new(host.alloc(), Way::All);
    let is_run = ends(host, &words, (script, &mut out), (0, b""));
    is_so(rt, is_run, "a run");
    place
}

const STORE: &[u8] = b"node 7 epoch 0 count 1 floor 0 kept 0 tables 0 0 0 0 0 0 0
row a=1
row b=%20
rows 2 at 1
";

// Whether an output that takes so many bytes gets a beginning of the text, and the failure is told.
fn accepts(host: &HostRuntime, folder: &str, room: usize) -> bool {
    let words = ["chainstore", "dump", folder];
    let mut out = Output::new(host.alloc(), Way::Room(room));
    let has_ended = ends(host, &words, (b"", &mut out), (1, UNWRITTEN));
    let is_beginning = out.taken.len() == room && STORE.starts_with(&out.taken);
    drop(out);
    has_ended && is_beginning
}

#[test]
fn an_output_accepts_a_beginning_of_a_store(rt: HostRuntime) {
    let script = b"config 7\nsubmit 7 a=1 b=%20\n";
    let place = run_in_folders(&rt, &rt, "mudtwill_short_dump", script);
    let folder = below(&rt, &rt, place.as_str(), "7");
    for room in 0..STORE.len() {
        let is_accepted = accepts(&rt, folder.as_str(), room);
        is_so(&rt, is_accepted, "a beginning of the store");
    }
    clear(&rt, &rt, place.as_str());
}

// How many bytes are there at each flush of a dump of eleven rows of 17,414 bytes: after the line
// of the numbers, after each page, with five new rows, four and two, and after the last line.
const LONG_ENDS: &[usize] = &[60, 87_130, 156_786, 191_614, 191_628];

fn long_script(rt: &impl Abort, alloc: Global) -> String {
    let mut script = String::from_str(alloc, "config 1\n").expect(rt, "memory");
    let key = "z".repeat(alloc, 1023).expect(rt, "memory");
    let value = "v".repeat(alloc, 16384).expect(rt, "memory");
    for end in ["0", "1", "2", "3", "4", "5", "6", "7", "8", "9", "a"] {
        let (key, value) = (key.as_str(), value.as_str());
        let line = format!(in alloc; "submit 1 {key}{end}={value}\n").expect(rt, "memory");
        script.push_str(line.as_str()).expect(rt, "memory");
    }
    script
}

#[test]
fn each_page_of_a_store_is_flushed(rt: HostRuntime) {
    let script = long_script(&rt, rt.alloc());
    let place = run_in_folders(&rt, &rt, "mudtwill_long_dump", script.as_bytes());
    let folder = below(&rt, &rt, place.as_str(), "1");
    let words = ["chainstore", "dump", folder.as_str()];
    let mut out = Output::new(rt.alloc(), Way::All);
    let has_ended = ends(&rt, &words, (b"", &mut out), (0, b""));
    let is_flushed = has_ended && out.flushes.as_slice() == LONG_ENDS;
    is_so(&rt, is_flushed, "the pages");
    clear(&rt, &rt, place.as_str());
}
