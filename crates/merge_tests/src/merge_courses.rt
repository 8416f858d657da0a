// Courses of a store that merges: its batches, snapshots and tends, beside a plain store.
use crate::cases::{has_memory, holds_at, is_so};
use crate::items::{number, put};
use crate::plain_store::{
    Change, PlainStore, Span, agreeing_pages, append_late, batch_at, commit, created_with, key_at,
    opened_with, tend, tends,
};
use disk::Disk;
use engine::{Engine, EngineError, Tended};
use kv_types::Limits;
use std::alloc::Global;
use std::process::Abort;

/// The keys of courses have places below this one.
const BOUND: u16 = 700;

/// A step of a course.
#[derive(Clone, Copy)]
pub enum Step {
    /// A batch of these changes, and all batches are committed.
    Put(&'static [Change]),
    /// A batch of these changes. The committed number stays.
    Late(&'static [Change]),
    /// A batch of puts to the keys from a place on, so many, with one value, which is committed.
    Fill(u16, u16, u16),
    Commit,
    Open(u64),
    Close(u64),
    /// Tends, each of which works, by the number of their device calls where no read comes between.
    Tends(&'static [u64]),
    Idle,
    /// The store is opened again, and all batches are committed.
    Reopen,
    /// The floor, the number of batches trimmed from the logs, and the tables of each level.
    Shows(u64, u64, [u64; 7]),
}

/// The limits of level 0, of an output and of level 1; the steps; and the files behind them but for
/// the slots, each with its length.
pub struct Course {
    pub limits: [u64; 3],
    pub steps: &'static [Step],
    pub files: &'static [(u64, u64)],
}

impl Course {
    /// Its limits. Each log that has a batch is due for a flush.
    pub fn limits(&self, rt: &impl Abort) -> Limits {
        let [l0, table, level] = self.limits;
        let limits = Limits::new(16, l0, table, level, 1_024);
        limits.ok().expect(rt, "limits")
    }
}

/// A store in a course, the plain store beside it, and the numbers of its open snapshots.
#[derive(Drop)]
pub struct Run<D: Disk + Drop> {
    pub engine: Engine<D>,
    pub plain: PlainStore,
    pub open: Vec<u64>,
}

// The puts of so many keys from a place on.
fn filling(rt: &impl Abort, alloc: Global, low: u16, count: u16, value: u16) -> Vec<Change> {
    let mut changes = Vec::new(alloc);
    for place in low..low.saturating_add(count) {
        put(rt, &mut changes, (place, Some(value)));
    }
    changes
}

// The numbers without the first of these.
fn without(rt: &impl Abort, alloc: Global, numbers: &[u64], one: u64) -> Vec<u64> {
    let (mut left, mut is_there) = (Vec::new(alloc), false);
    for number in numbers {
        if *number == one && !is_there {
            is_there = true;
        } else {
            put(rt, &mut left, *number);
        }
    }
    left
}

impl<D: Disk + Drop> Run<D> {
    /// A new store on this disk.
    pub fn new(rt: &impl Abort, alloc: Global, disk: D, limits: &Limits) -> Run<D> {
        Run {
            engine: created_with(rt, alloc, disk, limits),
            plain: PlainStore::new(rt, alloc),
            open: Vec::new(alloc),
        }
    }

    /// Appends a batch of these changes.
    pub fn append(&mut self, rt: &impl Abort, alloc: Global, changes: &[Change]) {
        append_late(rt, &mut self.engine, &batch_at(rt, alloc, changes));
        self.plain.add(rt, self.engine.count().get(), changes);
    }

    pub fn open(&mut self, rt: &impl Abort, alloc: Global, at: u64) {
        let opened = self.engine.open_snapshot(number(at));
        is_so(rt, opened.is_ok(), "a snapshot");
        put(rt, &mut self.open, at);
    }

    pub fn close(&mut self, rt: &impl Abort, alloc: Global, at: u64) {
        let closed = self.engine.close_snapshot(number(at));
        is_so(rt, closed.is_ok(), "a snapshot less");
        self.open = without(rt, alloc, &self.open, at);
    }

    /// So many tends, each of which works.
    pub fn work(&mut self, rt: &impl Abort, alloc: Global, count: usize) {
        for _ in 0..count {
            is_so(rt, tends(rt, alloc, &mut self.engine), "a tend that works");
        }
    }

    /// The store behind an opening.
    pub fn reopened(self, rt: &impl Abort, alloc: Global, limits: &Limits) -> Run<D> {
        let Run { engine, plain, .. } = self;
        Run {
            engine: opened_with(rt, alloc, engine.into_disk(), limits),
            plain,
            open: Vec::new(alloc),
        }
    }

    // Whether these are its floor, its trimmed batches and its tables.
    fn shows(&self, floor: u64, kept: u64, tables: [u64; 7]) -> bool {
        self.engine.floor().get() == floor
            && self.engine.kept().get() == kept
            && self.engine.tables() == tables
    }

    /// The store behind a step that is no opening.
    fn step(&mut self, rt: &impl Abort, alloc: Global, step: &Step) {
        match step {
            Step::Put(changes) => self.append(rt, alloc, *changes),
            Step::Late(changes) => self.append(rt, alloc, *changes),
            Step::Fill(low, count, value) => {
                let changes = filling(rt, alloc, *low, *count, *value);
                self.append(rt, alloc, &changes);
            }
            Step::Open(at) => self.open(rt, alloc, *at),
            Step::Close(at) => self.close(rt, alloc, *at),
            Step::Tends(calls) => self.work(rt, alloc, calls.len()),
            Step::Idle => {
                let tended = tend(rt, alloc, &mut self.engine);
                is_so(rt, tended == Tended::Idle, "nothing due");
            }
            Step::Shows(floor, kept, tables) => {
                is_so(rt, self.shows(*floor, *kept, *tables), "the numbers");
            }
            Step::Commit | Step::Reopen => {}
        }
        if matches!(step, Step::Put(_) | Step::Fill(..) | Step::Commit) {
            commit(&mut self.engine);
        }
    }

    /// The store behind a step.
    pub fn behind(self, rt: &impl Abort, alloc: Global, step: &Step, limits: &Limits) -> Run<D> {
        let mut run = self;
        if matches!(step, Step::Reopen) {
            run = run.reopened(rt, alloc, limits);
        }
        run.step(rt, alloc, step);
        run
    }

    /// Whether the rows at the number are those of the plain store.
    pub fn agrees_at(&mut self, rt: &impl Abort, alloc: Global, at: u64) -> bool {
        let span = Span {
            low: 0,
            bound: Some(BOUND),
            backward: at % 2 == 1,
            limit: 1_024,
        };
        agreeing_pages(rt, alloc, &mut self.engine, &self.plain, (at, span)).is_some()
    }

    /// Whether a read and a snapshot at the number are refused for this.
    fn refuses(&mut self, rt: &impl Abort, alloc: Global, at: u64, why: EngineError) -> bool {
        let key = key_at(rt, alloc, 0);
        let read = self.engine.get(alloc, number(at), &key).err();
        let opened = self.engine.open_snapshot(number(at)).err();
        has_memory(rt, read == Some(EngineError::Memory));
        read == Some(why) && opened == Some(why)
    }

    // Whether each batch that is not trimmed can be read.
    fn has_batches(&mut self, rt: &impl Abort, alloc: Global) -> bool {
        for place in 1..self.engine.count().get().saturating_add(1) {
            let (at, count) = (number(place), self.engine.count());
            if self.engine.kept() < at && at <= count {
                let batch = self.engine.batch(alloc, at);
                is_so(rt, batch.is_ok(), "a batch");
            }
        }
        self.engine.kept() <= self.engine.floor()
    }

    /// Whether the store has what the plain one has at its floor, at its committed number and at
    /// each open snapshot, and refuses the numbers beyond.
    pub fn agrees(&mut self, rt: &impl Abort, alloc: Global) -> bool {
        let (floor, committed) = (self.engine.floor().get(), self.engine.committed().get());
        let mut is_so = self.agrees_at(rt, alloc, floor)
            && self.agrees_at(rt, alloc, committed)
            && self.has_batches(rt, alloc);
        for index in 0..self.open.len() {
            let at = self.open.get(index).copied().unwrap_or(committed);
            is_so = self.agrees_at(rt, alloc, at) && is_so;
        }
        if floor > 0 {
            let below = floor.saturating_sub(1);
            is_so = self.refuses(rt, alloc, below, EngineError::TooOld) && is_so;
        }
        let behind = committed.saturating_add(1);
        self.refuses(rt, alloc, behind, EngineError::NotCommitted) && is_so
    }
}

// Whether these are the files of the disk but for the slots, each with its length.
fn has_files<D: Disk>(rt: &impl Abort, disk: &mut D, want: &[(u64, u64)]) -> bool {
    let files = disk.files().expect(rt, "the files");
    if files.len() != want.len().saturating_add(2) {
        return false;
    }
    for (file, length) in want {
        if disk.length(*file).ok() != Some(*length) {
            return false;
        }
    }
    true
}

/// Runs a course, and reads behind each of its tends and its other steps. The failure names the
/// step that does not hold, by its place behind the first one's.
pub fn run_course<D: Disk + Drop>(
    rt: &impl Abort,
    alloc: Global,
    disk: D,
    course: &Course,
    first: usize,
) {
    let limits = course.limits(rt);
    let mut run = Run::new(rt, alloc, disk, &limits);
    for (index, step) in course.steps.iter().enumerate() {
        let place = first.saturating_add(index);
        if let Step::Tends(calls) = step {
            for _ in *calls {
                holds_at(rt, place, tends(rt, alloc, &mut run.engine));
                holds_at(rt, place, run.agrees(rt, alloc));
            }
        } else {
            run = run.behind(rt, alloc, step, &limits);
            holds_at(rt, place, run.agrees(rt, alloc));
        }
    }
    let mut disk = run.engine.into_disk();
    let place = first.saturating_add(course.steps.len());
    holds_at(rt, place, has_files(rt, &mut disk, course.files));
}

/// The store before the tend of a number, from 0, in a course, and the number of its device calls.
pub fn before_tend<D: Disk + Drop>(
    rt: &impl Abort,
    alloc: Global,
    disk: D,
    course: &Course,
    which: usize,
) -> Option<(Run<D>, u64)> {
    let limits = course.limits(rt);
    let mut run = Run::new(rt, alloc, disk, &limits);
    let mut left = which;
    for step in course.steps {
        if let Step::Tends(calls) = step {
            if let Some(want) = calls.get(left) {
                run.work(rt, alloc, left);
                return Some((run, *want));
            }
            left = left.saturating_sub(calls.len());
        }
        run = run.behind(rt, alloc, step, &limits);
    }
    None
}
