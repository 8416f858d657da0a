//! The text of a node's numbers.
ghost use Rattle.std.specs.Prelude.{◌≡◌, Some};
ghost use Rattle.std.specs.List.{flat_map};
ghost use Rattle.store_texts.specs.Texts.{counts_text, kept_text, numbers_text, spaced, store_text};

use configurations::NodeId;
use node::Numbers;
use std::fmt;

// How many tables each level has.
#[derive(Clone, Copy)]
struct TableCounts<'a>(&'a [u64]);

impl fmt::Display for TableCounts<'_> {
    ghost output = { λ it. Some (flat_map spaced it.0.now) };

    fn fmt<W: fmt::Write>(&self, f: &mut fmt::Formatter<W>) -> fmt::Result {
        for count in self.0 {
            write!(f, " {count}")?;
        }
        Ok(())
    }
}

// How many batches a node has.
#[derive(Clone, Copy)]
struct CountsText {
    epoch: u32,
    count: u64,
    committed: u64,
}

impl CountsText {
    fn of(numbers: &Numbers) -> CountsText
        ensures { (result.epoch ≡ numbers.now.epoch) × (result.count ≡ numbers.now.count)
            × (result.committed ≡ numbers.now.committed) }
    {
        CountsText {
            epoch: numbers.epoch.get(),
            count: numbers.count.get(),
            committed: numbers.committed.get(),
        }
    }
}

impl fmt::Display for CountsText {
    ghost output = { λ it. Some (counts_text it.epoch it.count it.committed) };

    fn fmt<W: fmt::Write>(&self, f: &mut fmt::Formatter<W>) -> fmt::Result {
        let (epoch, count, committed) = (self.epoch, self.count, self.committed);
        write!(f, "epoch {epoch} count {count} committed {committed}")
    }
}

// What it keeps of them, and its tables.
#[derive(Clone, Copy)]
struct KeptText<'a> {
    floor: u64,
    kept: u64,
    tables: &'a [u64],
}

impl<'a> KeptText<'a> {
    fn of(numbers: &'a Numbers) -> KeptText<'a>
        ensures { (result.floor ≡ numbers.now.floor) × (result.kept ≡ numbers.now.kept)
            × (result.tables.now ≡ numbers.now.tables) }
    {
        KeptText {
            floor: numbers.floor.get(),
            kept: numbers.kept.get(),
            tables: &numbers.tables,
        }
    }
}

impl fmt::Display for KeptText<'_> {
    ghost output = { λ it. Some (kept_text it.floor it.kept it.tables.now) };

    fn fmt<W: fmt::Write>(&self, f: &mut fmt::Formatter<W>) -> fmt::Result {
        let (floor, kept) = (self.floor, self.kept);
        let tables = TableCounts(self.tables);
        write!(f, "floor {floor} kept {kept} tables{tables}")
    }
}

/// The numbers of a node that runs.
#[derive(Clone, Copy)]
pub struct NumbersText<'a>(pub NodeId, pub &'a Numbers);

impl fmt::Display for NumbersText<'_> {
    ghost output = { λ it. Some (numbers_text it.0 it.1.now) };

    fn fmt<W: fmt::Write>(&self, f: &mut fmt::Formatter<W>) -> fmt::Result {
        let node = self.0.get();
        let counts = CountsText::of(self.1);
        let kept = KeptText::of(self.1);
        write!(f, "node {node} {counts} {kept}")
    }
}

/// The numbers of a store of a node, which need not run: what it knows to be committed is left out.
#[derive(Clone, Copy)]
pub struct StoreText<'a>(pub NodeId, pub &'a Numbers);

impl fmt::Display for StoreText<'_> {
    ghost output = { λ it. Some (store_text it.0 it.1.now.epoch it.1.now.count it.1.now.floor
        it.1.now.kept it.1.now.tables) };

    fn fmt<W: fmt::Write>(&self, f: &mut fmt::Formatter<W>) -> fmt::Result {
        let (node, epoch) = (self.0.get(), self.1.epoch.get());
        let (count, kept) = (self.1.count.get(), KeptText::of(self.1));
        write!(f, "node {node} epoch {epoch} count {count} {kept}")
    }
}
