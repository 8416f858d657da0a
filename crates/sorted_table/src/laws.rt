//! Laws of the definitions that contracts use. The functions do nothing: their clauses are the
//! laws.
ghost use Rattle.sorted_table.specs.Open.{FinishedTablesAreFiles};

/// What a builder has finished can be opened.
// law: of `HoldsTable`
pub fn finished_tables_are_files()
    ensures { FinishedTablesAreFiles }
{}
