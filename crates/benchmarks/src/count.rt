// What a benchmark has done so far.
ghost use Rattle.std.specs.Prelude.{◌≡◌, ◌+◌, length, true};
ghost use Rattle.std.specs.List.{fold};
ghost use Rattle.std.specs.Result.{result_map_both};
ghost use Rattle.kv_types.specs.Content.{edits_of};
ghost use Rattle.benchmarks.specs.Counts.{no_count, left_of, with_operations, with_row, with_rows};
ghost use Rattle.benchmarks.specs.Counts.{with_edit, with_read, with_page, with_found};
ghost use Rattle.benchmarks.specs.Counts.{has_passed_tenth};

use crate::{Benchmark, Measure, ProgressLine};
use kv_types::{Batch, Edit, Key, Page, Row, Value};

/// What a benchmark has done so far. Each count stops at 2^64 - 1.
#[derive(Clone, Copy, Debug)]
pub struct Count {
    operations: u64,
    /// Rows that were written or found.
    rows: u64,
    /// Bytes of their keys and values.
    bytes: u64,
    /// Nothing is left to be done.
    ended: bool,
}

impl Count {
    /// Nothing was done yet.
    pub fn new() -> Count
        ensures { result ≡ no_count }
    {
        Count {
            operations: 0,
            rows: 0,
            bytes: 0,
            ended: false,
        }
    }

    /// How many operations are left of so many.
    pub fn left_of(&self, all: u64) -> u64
        ensures { result ≡ left_of self.now all }
    {
        if self.ended {
            return 0;
        }
        all.saturating_sub(self.operations)
    }

    /// Nothing is left to be done.
    pub fn end(&mut self)
        ensures { self.new ≡ record self.old { ended = true } }
    {
        self.ended = true;
    }

    /// Counts operations.
    pub fn add_operations(&mut self, operations: u64)
        ensures { self.new ≡ with_operations self.old operations }
    {
        self.operations = self.operations.saturating_add(operations);
    }

    /// Counts a row by the lengths of its key and value.
    fn add_row(&mut self, key: usize, value: usize)
        ensures { self.new ≡ with_row self.old (key + value) }
    {
        self.rows = self.rows.saturating_add(1);
        let bytes = (key as u64).saturating_add(value as u64);
        self.bytes = self.bytes.saturating_add(bytes);
    }

    fn add_rows(&mut self, rows: &[Row])
        ensures { self.new ≡ with_rows self.old rows.now }
    {
        for row in rows {
            self.add_row(row.key().len(), row.value().len());
        }
    }

    /// Counts an edit as an operation, and a put's row.
    fn add_edit(&mut self, edit: &Edit)
        ensures { self.new ≡ with_edit self.old edit.now }
    {
        match edit {
            Edit::Put(key, value) => {
                self.add_operations(1);
                self.add_row(key.as_bytes().len(), value.as_bytes().len());
            }
            Edit::Delete(_) => self.add_operations(1),
        }
    }

    /// Counts the edits of a batch, each as an operation and a put's row too, and lets it go.
    pub fn add_batch(&mut self, batch: Batch)
        ensures { self.new ≡ fold with_edit self.old (edits_of batch) }
    {
        for edit in batch.edits() {
            self.add_edit(edit);
        }
        drop(batch);
    }

    /// Counts what was read of a key, and lets both go.
    pub fn add_value<E>(&mut self, key: Key, read: Result<Option<Value>, E>) -> Result<(), E>
        ensures count { self.new ≡ with_read self.old key read }
        ensures answer { result ≡ result_map_both (λ _. tt) (λ e. e) read }
    {
        self.add_operations(1);
        if let Some(value) = read? {
            self.add_row(key.as_bytes().len(), value.as_bytes().len());
        }
        Ok(())
    }

    /// Counts the rows of a page, and lets it go.
    pub fn add_page(&mut self, page: Page)
        ensures { self.new ≡ with_page self.old page }
    {
        self.add_operations(page.rows().len() as u64);
        self.add_rows(page.rows());
        drop(page);
    }

    /// Counts the rows if the first one has this key.
    fn add_rows_at(&mut self, rows: &[Row], key: &Key)
        ensures { self.new ≡ with_found self.old rows.now key.now }
    {
        if let [row, ..] = rows {
            if row.key() == key.as_bytes() {
                self.add_rows(rows);
            }
        }
    }

    /// Counts the rows of a page if the first one has this key, and lets it go.
    pub fn add_found(&mut self, page: Page, key: &Key)
        ensures { self.new ≡ with_found self.old page.rows key.now }
    {
        self.add_rows_at(page.rows(), key);
        drop(page);
    }

    /// Whether another tenth of so many is done than before.
    pub fn has_passed_tenth(&self, before: &Count, all: u64) -> bool
        ensures { result ≡ has_passed_tenth self.now before.now all }
    {
        let tenth = (all / 10).max(1);
        self.operations / tenth != before.operations / tenth
    }

    /// The line that says how many operations of so many are done.
    pub fn progress(&self, benchmark: Benchmark, all: u64) -> ProgressLine
        ensures { result ≡ record {
          benchmark = benchmark;
          done = self.now.operations;
          all = all;
        } }
    {
        ProgressLine {
            benchmark,
            done: self.operations,
            all,
        }
    }

    /// What the benchmark did in this time.
    pub fn in_time(self, benchmark: Benchmark, nanos: u64) -> Measure
        ensures { result ≡ record {
          benchmark = benchmark;
          operations = self.operations;
          rows = self.rows;
          bytes = self.bytes;
          nanos = nanos;
        } }
    {
        let Count {
            operations,
            rows,
            bytes,
            ended: _,
        } = self;
        Measure {
            benchmark,
            operations,
            rows,
            bytes,
            nanos,
        }
    }
}
