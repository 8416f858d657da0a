// Openings of slots of which a byte is another, or that are cut short, by the manifest alone.
use crate::cases::{holds_at, is_so};
use crate::items::copy_of;
use crate::manifests::{SLOT, answer, disk_of, slot_with};
use engine::EngineError;
use manifest::ManifestError;
use std::alloc::Global;
use std::process::Abort;

const DAMAGED: Option<ManifestError> = Some(ManifestError::Damaged);

const NOT_CREATED: Option<ManifestError> = Some(ManifestError::NotCreated);

const OLD_FORMAT: Option<ManifestError> = Some(ManifestError::OldFormat);

// The refusal of opening the slot with this byte at this place, beside a closed one.
fn refusal_with(rt: &impl Abort, alloc: Global, at: usize, byte: u8) -> Option<ManifestError> {
    let bytes = slot_with(rt, alloc, at, byte);
    let mut disk = disk_of(rt, alloc, &bytes, &[0]);
    answer(rt, alloc, &mut disk).err()
}

// Whether an open slot with this byte at this place is read. No byte but the slot's own and those
// that are tried is asked for.
fn is_read(at: usize, byte: u8) -> bool {
    match at {
        // The first bytes of generation, next file, floor, flushed and the log's first number.
        1 | 18 | 26 | 34 | 61 => byte < 0x80,
        // Ids, and the log's first number, are not 0.
        12 | 48 | 68 => byte > 0,
        // The open gate of the record, one id, and one log.
        13 | 46 | 52 => byte == 1,
        // The lengths of the record and the log's files that are tried are none of theirs.
        17 | 60 => false,
        // The next file is above the log's.
        25 => byte > 3,
        // The epoch.
        45 => byte < 16,
        // The closed gate.
        73 => byte != 1,
        // The other bytes of these numbers and ids.
        2..=8 | 11 | 19..=24 | 27..=33 | 35..=41 | 47 | 62..=67 => true,
        // The two bytes before the id, and the other ones of lengths, of the epoch, and of the
        // log's file, are 0.
        _ => byte == 0,
    }
}

// The refusal of the slot with this byte at this place, of those that are tried.
fn wanted(at: usize, byte: u8) -> Option<ManifestError> {
    if at == 0 && byte != 1 {
        NOT_CREATED
    } else if at == 0 || is_read(at, byte) {
        None
    } else if at == 9 || at == 10 {
        // Here a slot of the old format has its id.
        OLD_FORMAT
    } else {
        DAMAGED
    }
}

#[test]
fn each_byte_changed(rt: HostRuntime) {
    for at in 0..74 {
        for byte in &[0, 1, 2, 0x80, 0xff] {
            let refused = refusal_with(&rt, rt.alloc(), at, *byte);
            holds_at(&rt, at, refused == wanted(at, *byte));
        }
    }
}

// The refusal of opening so many bytes of the slot beside a closed one.
fn refusal_of_first(rt: &impl Abort, alloc: Global, len: usize) -> Option<ManifestError> {
    let bytes = copy_of(rt, alloc, SLOT.get(..len).expect(rt, "at most 74 bytes"));
    let mut disk = disk_of(rt, alloc, &bytes, &[0]);
    answer(rt, alloc, &mut disk).err()
}

// An empty slot is not open; a longer one is, and ends before its log or inside it.
#[test]
fn slots_cut_short(rt: HostRuntime) {
    let is_empty = refusal_of_first(&rt, rt.alloc(), 0) == NOT_CREATED;
    is_so(&rt, is_empty, "an empty slot");
    for len in 1..74 {
        let is_damaged = refusal_of_first(&rt, rt.alloc(), len) == DAMAGED;
        holds_at(&rt, len, is_damaged);
    }
}

#[test]
fn the_old_format_has_its_numbers(rt: HostRuntime) {
    let of_manifest = ManifestError::OldFormat as u8;
    let of_engine = EngineError::OldFormat as u8;
    is_so(&rt, of_manifest == 6 && of_engine == 11, "other numbers");
}
