// Limits and numbers at their ends.
use crate::cases::{Case, all_hold, is_so};
use kv_types::{KvError, Limits, Number};
use std::alloc::Global;
use std::process::Abort;

const GIB: u64 = 1 << 30;

const TIB: u64 = 1 << 40;

/// Limits, and whether they are in range.
struct Ends([u64; 5], bool);

impl Case for Ends {
    fn holds(&self, _rt: &impl Abort, _alloc: Global) -> bool {
        let [log, l0, table, level, cache] = self.0;
        Limits::new(log, l0, table, level, cache).is_ok() == self.1
    }
}

static ENDS: [Ends; 11] = [
    Ends([16, 0, 64, 64, 1], true),
    Ends([GIB, 64, GIB, TIB, 65536], true),
    Ends([15, 0, 64, 64, 1], false),
    Ends([GIB + 1, 0, 64, 64, 1], false),
    Ends([16, 65, 64, 64, 1], false),
    Ends([16, 0, 63, 64, 1], false),
    Ends([16, 0, GIB + 1, 64, 1], false),
    Ends([16, 0, 64, 63, 1], false),
    Ends([16, 0, 64, TIB + 1, 1], false),
    Ends([16, 0, 64, 64, 0], false),
    Ends([16, 0, 64, 64, 65537], false),
];

#[test]
fn limits_at_their_ends(rt: HostRuntime) {
    all_hold(&rt, rt.alloc(), &ENDS);
}

#[test]
fn default_limits(rt: HostRuntime) {
    let limits = Limits::default();
    let files = [limits.log, limits.l0, limits.table, limits.level];
    is_so(&rt, files == [4194304, 4, 2097152, 10485760], "other files");
    is_so(&rt, limits.cache == 256, "another cache");
    is_so(&rt, Number::ZERO.get() == 0, "another least number");
}

const GREATEST: u64 = (1 << 63) - 1;

/// A value, whether it is a number, and whether a next number follows it.
struct Numeral(u64, bool, bool);

impl Case for Numeral {
    fn holds(&self, _rt: &impl Abort, _alloc: Global) -> bool {
        match Number::new(self.0) {
            Some(number) => self.1 && number.next().is_some() == self.2,
            None => !self.1,
        }
    }
}

static NUMBERS: [Numeral; 4] = [
    Numeral(0, true, true),
    Numeral(GREATEST - 1, true, true),
    Numeral(GREATEST, true, false),
    Numeral(GREATEST + 1, false, false),
];

#[test]
fn numbers_up_to_the_greatest(rt: HostRuntime) {
    all_hold(&rt, rt.alloc(), &NUMBERS);
}

/// The numbers of the refusals.
static REFUSAL_NUMBERS: [u8; 9] = [
    KvError::KeyTooLong as u8,
    KvError::ValueTooLong as u8,
    KvError::NoEdits as u8,
    KvError::TooManyEdits as u8,
    KvError::BatchTooLong as u8,
    KvError::BadBytes as u8,
    KvError::Memory as u8,
    KvError::BadLimit as u8,
    KvError::BadMark as u8,
];

#[test]
fn refusals_have_their_numbers(rt: HostRuntime) {
    let are_so = REFUSAL_NUMBERS == [1, 2, 3, 4, 5, 6, 7, 8, 9];
    is_so(&rt, are_so, "other numbers");
}
