// The inputs of a plan, among the tables of a version.
ghost use Rattle.std.specs.Prelude.{◌≡◌, IfOk, filter, map, option_map, Some};
ghost use Rattle.compaction.specs.Inputs.{lent_range, line_name};
ghost use Rattle.compaction.specs.Plans.{is_line_input, joint, names_line, overlaps, range_of};
ghost use Rattle.compaction.specs.Plans.{with_range};
ghost use Rattle.compaction.specs.Survivors.{key_range};

use crate::plan::Plan;
use crate::ranges::is_below;
use byte_fields::LentKey;
use std::alloc::{AllocError, Global};
use version_edits::{TableLine, TableName};

/// A range of keys from the least to the greatest, which are lent.
#[derive(Clone, Copy)]
pub struct LentRange<'a> {
    pub least: LentKey<'a>,
    pub greatest: LentKey<'a>,
}

// The range of a table.
fn line_range(line: &TableLine) -> LentRange<'_>
    ensures { lent_range result ≡ key_range line.now }
{
    LentRange {
        least: line.least.lent(),
        greatest: line.greatest.lent(),
    }
}

// The joint range of two.
fn joint<'a>(a: LentRange<'a>, b: LentRange<'a>) -> LentRange<'a>
    ensures { lent_range result ≡ joint (lent_range a.entry) (lent_range b.entry) }
{
    LentRange {
        least: if is_below(b.least, a.least) {
            b.least
        } else {
            a.least
        },
        greatest: if is_below(a.greatest, b.greatest) {
            b.greatest
        } else {
            a.greatest
        },
    }
}

// Whether the ranges share keys.
fn overlaps(a: LentRange, b: LentRange) -> bool
    ensures { result ≡ overlaps (lent_range a.entry) (lent_range b.entry) }
{
    !(is_below(a.greatest, b.least) || is_below(b.greatest, a.least))
}

impl Plan {
    // Whether the plan names the table.
    fn names(self, line: &TableLine) -> bool
        ensures { result ≡ names_line self line.now.level line.now.file }
    {
        if self.level != line.level {
            return false;
        }
        match self.file {
            Some(file) => file == line.file,
            None => line.file < self.below,
        }
    }

    // The joint range with that of a table more, if the plan names it.
    fn with_range<'a>(
        self,
        range: Option<LentRange<'a>>,
        line: &'a TableLine,
    ) -> Option<LentRange<'a>>
        ensures { option_map lent_range result
            ≡ with_range self (option_map lent_range range.entry) line.now }
    {
        if !self.names(line) {
            return range;
        }
        match range {
            Some(range) => Some(joint(range, line_range(line))),
            None => Some(line_range(line)),
        }
    }

    /// The joint range of the tables that the plan names, among these of a version.
    pub fn range<'a>(self, tables: &'a [TableLine]) -> Option<LentRange<'a>>
        ensures { option_map lent_range result ≡ range_of self tables.now }
    {
        let mut range = None;
        let mut rest = tables;
        while let [line, later @ ..] = rest {
            range = self.with_range(range, line);
            rest = later;
        }
        range
    }

    /// Whether a table is an input of the plan, whose joint range this is: the plan names it, or it
    /// is one of the next level that overlaps the range.
    pub fn has_input(self, range: LentRange, line: &TableLine) -> bool
        ensures { result ≡ is_line_input self (lent_range range.entry) line.now }
    {
        self.names(line)
            || (self.level as u16 + 1 == line.level as u16 && overlaps(range, line_range(line)))
    }

    /// The names of the inputs of the plan, whose joint range this is, in the order of the version.
    pub fn input_names(
        self,
        alloc: Global,
        range: LentRange,
        tables: &[TableLine],
    ) -> Result<Vec<TableName>, AllocError>
        ensures { IfOk result (λ names. names.items ≡ map line_name
            (filter (is_line_input self (lent_range range.entry)) tables.now)) }
    {
        let mut names = Vec::new(alloc);
        let mut rest = tables;
        while let [line, later @ ..] = rest {
            if self.has_input(range, line) {
                names.push(TableName {
                    level: line.level,
                    file: line.file,
                })?;
            }
            rest = later;
        }
        Ok(names)
    }
}
