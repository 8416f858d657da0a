// Stores with as many tables as there may be: `Full`, and the store as it was before.
use crate::cases::{Case, all_hold, is_so};
use crate::files::next_behind;
use crate::items::{number, put};
use crate::stores::{self, Change, append, batch_at, has_at, tend, tends};
use disk::MemDisk;
use engine::{Engine, Tended};
use kv_types::Limits;
use std::alloc::Global;
use std::process::Abort;

// A level 0 of so many tables, and outputs of one key each.
pub fn limits(rt: &impl Abort, l0: u64) -> Limits {
    let limits = Limits::new(16, l0, 64, 1 << 40, 1_024);
    limits.ok().expect(rt, "limits")
}

pub fn created(rt: &impl Abort, alloc: Global) -> Engine<MemDisk> {
    stores::created(rt, alloc, MemDisk::new(alloc), &limits(rt, 0))
}

pub fn put_one(rt: &impl Abort, alloc: Global, engine: &mut Engine<MemDisk>, change: Change) {
    append(rt, engine, &batch_at(rt, alloc, &[change]));
}

// Whether each of so many tends works.
fn all_work(rt: &impl Abort, alloc: Global, engine: &mut Engine<MemDisk>, count: usize) -> bool {
    let mut all = true;
    for _ in 0..count {
        all = all && tends(rt, alloc, engine);
    }
    all
}

// Whether the key has this value now.
pub fn has(rt: &impl Abort, alloc: Global, engine: &mut Engine<MemDisk>, change: Change) -> bool {
    let at = engine.committed().get();
    has_at(rt, alloc, engine, change, at)
}

// Whether levels 0 and 1 have so many tables, and the others none.
pub fn has_tables(engine: &Engine<MemDisk>, (flushed, merged): (u64, u64)) -> bool {
    engine.tables() == [flushed, merged, 0, 0, 0, 0, 0]
}

// The first of the keys of wide stores.
const LOW: u16 = 100;

// Keys with one table each behind a merge, how often the last is put, how many flushes come before
// the last tend of the merge, what this answers, the tables, and the next file behind one flush
// more.
struct Wide {
    keys: u16,
    puts: u16,
    flushes: u16,
    want: Tended,
    tables: (u64, u64),
    next: u64,
}

impl Wide {
    // Puts the keys in batches of 256, and the last one again.
    fn fill(&self, rt: &impl Abort, alloc: Global, engine: &mut Engine<MemDisk>) {
        let (mut changes, mut place) = (Vec::new(alloc), LOW);
        for _ in 0..self.keys {
            put(rt, &mut changes, (place, Some(1)));
            place = place.saturating_add(1);
        }
        for part in changes.chunks(256) {
            append(rt, engine, &batch_at(rt, alloc, part));
        }
        for _ in 1..self.puts {
            put_one(rt, alloc, engine, (place.saturating_sub(1), Some(1)));
        }
    }

    // Whether the tends before the last one of the merge work: of a flush, of the beginning and of
    // all but the last 256 entries; and then so many flushes.
    fn has_begun(&self, rt: &impl Abort, alloc: Global, engine: &mut Engine<MemDisk>) -> bool {
        let entries = self.keys.saturating_add(self.puts).saturating_sub(2);
        let mut all = all_work(
            rt,
            alloc,
            engine,
            (entries / 256).saturating_add(2) as usize,
        );
        for flush in 0..self.flushes {
            put_one(rt, alloc, engine, (flush, Some(1)));
            all = all && tends(rt, alloc, engine);
        }
        all
    }

    // Whether the first and the last of the keys are found, and one behind it is not.
    fn reads(&self, rt: &impl Abort, alloc: Global, engine: &mut Engine<MemDisk>) -> bool {
        let behind = LOW.saturating_add(self.keys);
        has(rt, alloc, engine, (LOW, Some(1)))
            && has(rt, alloc, engine, (behind.saturating_sub(1), Some(1)))
            && has(rt, alloc, engine, (behind, None))
    }

    // Whether the last tend of the merge answers as it should, and leaves what it should.
    fn ends(&self, rt: &impl Abort, alloc: Global, engine: &mut Engine<MemDisk>) -> bool {
        let is_answer = tend(rt, alloc, engine) == self.want;
        is_answer && has_tables(engine, self.tables) && self.reads(rt, alloc, engine)
    }

    // Whether a table more has place but for the last row. Behind a long edit a rewrite comes
    // first.
    fn goes_on(&self, rt: &impl Abort, alloc: Global, engine: &mut Engine<MemDisk>) -> bool {
        put_one(rt, alloc, engine, (90, Some(1)));
        let first = tend(rt, alloc, engine);
        let second = if self.want == Tended::Full {
            first
        } else {
            tend(rt, alloc, engine)
        };
        let is_full = self.tables.0.saturating_add(self.tables.1) >= 4_096;
        first == Tended::Worked
            && (second == Tended::Full) == is_full
            && self.reads(rt, alloc, engine)
    }
}

impl Case for Wide {
    fn holds(&self, rt: &impl Abort, alloc: Global) -> bool {
        let mut engine = created(rt, alloc);
        let opened = engine.open_snapshot(number(0));
        is_so(rt, opened.is_ok(), "a snapshot");
        self.fill(rt, alloc, &mut engine);
        let all = self.has_begun(rt, alloc, &mut engine)
            && self.ends(rt, alloc, &mut engine)
            && self.goes_on(rt, alloc, &mut engine);
        next_behind(rt, alloc, engine) == Some(self.next) && all
    }
}

static WIDE: [Wide; 5] = [
    // All tables but one.
    Wide {
        keys: 4_095,
        puts: 1,
        flushes: 0,
        want: Tended::Worked,
        tables: (0, 4_095),
        next: 4_103,
    },
    // The table of the last key has no place beside the input.
    Wide {
        keys: 4_096,
        puts: 1,
        flushes: 0,
        want: Tended::Full,
        tables: (1, 0),
        next: 8,
    },
    // Nor has it where a flush came between.
    Wide {
        keys: 4_095,
        puts: 1,
        flushes: 1,
        want: Tended::Full,
        tables: (2, 0),
        next: 3_850,
    },
    // All outputs are begun, and a flush comes between: all tables.
    Wide {
        keys: 4_095,
        puts: 3,
        flushes: 1,
        want: Tended::Worked,
        tables: (1, 4_095),
        next: 4_103,
    },
    // Two come between: the edit would leave one table more.
    Wide {
        keys: 4_095,
        puts: 3,
        flushes: 2,
        want: Tended::Full,
        tables: (3, 0),
        next: 4_107,
    },
];

#[test]
fn as_many_tables_as_there_may_be(rt: HostRuntime) {
    all_hold(&rt, rt.alloc(), &WIDE);
}
