//! Laws of the definitions that contracts use. The functions do nothing: their clauses are the
//! laws.
ghost use Rattle.record_log.specs.Grammar.{RecordsAreUnique};
ghost use Rattle.record_log.specs.Logs.{FirstLengthIs, GatesAreInFiles, RecordBoundIs};

/// Bytes represent at most one list of records.
pub fn records_are_unique()
    ensures { RecordsAreUnique }
{}

/// The closed gate of a log is within its file.
pub fn gates_are_in_files()
    ensures { GatesAreInFiles }
{}

/// The first length of a log is that of the first record that it holds.
pub fn first_lengths_are()
    ensures { FirstLengthIs }
{}

/// The limit of a record as a number.
// law: of `MAX_RECORD`
pub fn record_bound_is()
    ensures { RecordBoundIs }
{}
