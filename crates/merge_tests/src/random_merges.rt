// Random batches of stores that flush, merge and crash, beside a plain store.
use crate::acts::{Choice, mend};
use crate::cases::{Case, all_hold, has_memory, holds_at, is_so};
use crate::items::put;
use crate::merge_courses::Run;
use crate::merge_faults::{WAYS, is_alone, settles};
use crate::numbers::Numbers;
use crate::plain_store::{
    Change, KEYS, Span, agreeing_pages, batch_at, commit, get_agrees, opened_with,
};
use disk::{Crash, Fault, MemDisk};
use engine::EngineError;
use kv_types::Limits;
use std::alloc::Global;
use std::process::Abort;

// All keys, in pages as large as may be.
const ALL: Span = Span {
    low: 0,
    bound: None,
    backward: false,
    limit: 1_024,
};

impl Run<MemDisk> {
    // Whether each key has at the number what the plain store has, in a walk and by itself.
    fn has_all_at(&mut self, rt: &impl Abort, alloc: Global, at: u64) -> bool {
        let mut span = ALL;
        span.backward = at % 2 == 1;
        let walk = (at, span);
        let pages = agreeing_pages(rt, alloc, &mut self.engine, &self.plain, walk);
        let mut has_all = pages.is_some();
        for place in 0..KEYS {
            has_all = get_agrees(rt, alloc, &mut self.engine, &self.plain, (place, at)) && has_all;
        }
        has_all
    }

    // Whether it has all at its floor, at its count, and at the snapshots that are open or were
    // when a fault struck.
    fn has_all(&mut self, rt: &impl Abort, alloc: Global) -> bool {
        let (floor, count) = (self.engine.floor().get(), self.engine.count().get());
        let mut has_all = self.has_all_at(rt, alloc, floor) && self.has_all_at(rt, alloc, count);
        for index in 0..self.open.len() {
            let at = self.open.get(index).copied().unwrap_or(count);
            has_all = self.has_all_at(rt, alloc, at) && has_all;
        }
        has_all
    }

    // Whether a tend is struck by a fault.
    fn is_tend_struck(&mut self, rt: &impl Abort, alloc: Global) -> bool {
        let refused = self.engine.tend(alloc).err();
        has_memory(rt, refused == Some(EngineError::Memory));
        refused.is_some()
    }

    // Appends a batch of these changes, and says whether a fault strikes. The plain store has them
    // in any case.
    fn is_append_struck(&mut self, rt: &impl Abort, alloc: Global, changes: &[Change]) -> bool {
        let number = self.engine.count().get().saturating_add(1);
        self.plain.add(rt, number, changes);
        let batch = batch_at(rt, alloc, changes);
        let refused = self.engine.append(&batch).err();
        drop(batch);
        has_memory(rt, refused == Some(EngineError::Memory));
        commit(&mut self.engine);
        refused.is_some()
    }
}

// Limits of a store, how many rounds of batches it has, how many batches come in a round before a
// fault, and the changes of each.
struct Mixed {
    limits: [u64; 4],
    rounds: usize,
    batches: u64,
    changes: u16,
}

impl Mixed {
    fn limits(&self, rt: &impl Abort) -> Limits {
        let [log, l0, table, level] = self.limits;
        let limits = Limits::new(log, l0, table, level, 1_024);
        limits.ok().expect(rt, "limits")
    }

    fn changes(&self, rt: &impl Abort, alloc: Global, numbers: &mut Numbers) -> Vec<Change> {
        let mut changes = Vec::new(alloc);
        for _ in 0..self.changes {
            put(rt, &mut changes, numbers.change());
        }
        changes
    }

    // Appends so many batches with tends behind each, until a fault strikes. Says how many batches
    // there may be at most.
    fn extend(
        &self,
        rt: &impl Abort,
        alloc: Global,
        run: &mut Run<MemDisk>,
        numbers: &mut Numbers,
        batches: u64,
    ) -> u64 {
        for _ in 0..batches {
            let changes = self.changes(rt, alloc, numbers);
            if run.is_append_struck(rt, alloc, &changes) {
                return run.engine.count().get().saturating_add(1);
            }
            for _ in 0..numbers.next() % 5 {
                if run.is_tend_struck(rt, alloc) {
                    return run.engine.count().get();
                }
            }
        }
        run.engine.count().get()
    }

    // The store that a fault has struck, behind one of the ways to go on. It has so many batches.
    fn recovered(
        &self,
        rt: &impl Abort,
        alloc: Global,
        run: Run<MemDisk>,
        (least, most): (u64, u64),
        way: Option<Choice>,
    ) -> Run<MemDisk> {
        let Run {
            engine,
            plain,
            open,
        } = run;
        let (mut disk, mut plain) = (engine.into_disk(), plain);
        is_so(rt, disk.has_struck(), "a fault");
        mend(rt, alloc, &mut disk, way);
        let engine = opened_with(rt, alloc, disk, &self.limits(rt));
        let count = engine.count().get();
        is_so(rt, least <= count && count <= most, "the batches");
        plain.keep(count);
        Run {
            engine,
            plain,
            open,
        }
    }

    // The store behind a round: two snapshots, batches and tends, and a fault at one of the next
    // calls. Says whether it had all before the fault, and has all behind it.
    fn behind_round(
        &self,
        rt: &impl Abort,
        alloc: Global,
        run: Run<MemDisk>,
        numbers: &mut Numbers,
        way: Option<Choice>,
    ) -> (Run<MemDisk>, bool) {
        let mut run = run;
        for _ in 0..2u8 {
            let at = numbers.at(run.engine.floor().get(), run.engine.count().get());
            run.open(rt, alloc, at);
        }
        self.extend(rt, alloc, &mut run, numbers, self.batches);
        let had_all = run.has_all(rt, alloc);
        let fault = Fault::Fail(u64::from(numbers.next() % 128 + 1));
        run.engine.arm(&fault);
        drop(fault);
        let most = self.extend(rt, alloc, &mut run, numbers, 128);
        let least = run.engine.count().get();
        let mut run = self.recovered(rt, alloc, run, (least, most), way);
        let has_all = run.has_all(rt, alloc);
        run.open = Vec::new(alloc);
        (run, had_all && has_all)
    }
}

impl Case for Mixed {
    fn holds(&self, rt: &impl Abort, alloc: Global) -> bool {
        let mut numbers = Numbers::new();
        let mut run = Run::new(rt, alloc, MemDisk::new(alloc), &self.limits(rt));
        for round in 0..self.rounds {
            let way = WAYS[round % 6];
            let (behind, has_all) = self.behind_round(rt, alloc, run, &mut numbers, way);
            holds_at(rt, round, has_all);
            run = behind;
        }
        let is_settled = settles(rt, alloc, &mut run) && run.has_all(rt, alloc);
        let [_, first, second, third, ..] = run.engine.tables();
        let is_alone = is_alone(rt, alloc, run.engine);
        is_settled && first > 0 && second > 0 && third > 0 && is_alone
    }
}

static MIXED: [Mixed; 2] = [
    // Each batch is flushed, and each table merged, of one key or two.
    Mixed {
        limits: [16, 0, 256, 1_024],
        rounds: 6,
        batches: 20,
        changes: 3,
    },
    // Some 20,000 puts.
    Mixed {
        limits: [4_096, 2, 8_192, 16_384],
        rounds: 28,
        batches: 94,
        changes: 10,
    },
];

#[test]
fn random_merges_beside_a_plain_store(rt: HostRuntime) {
    all_hold(&rt, rt.alloc(), &MIXED);
}
