//! Laws of the definitions that contracts use. The functions do nothing: their clauses are the
//! laws.
ghost use Rattle.table_format.specs.Tables.{TableIsUnique};
ghost use Rattle.table_format.specs.Sizes.{SizesAre};
ghost use Rattle.table_format.specs.Examples.{PartExamples, TableExamples};

/// Bytes represent at most one list of entries.
// law: of `TableRepresents`
pub fn tables_are_unique()
    ensures { TableIsUnique }
{}

/// The value of each size as a number.
// law: of the constants in `sizes`
pub fn sizes_are()
    ensures { SizesAre }
{}

/// The tables of one entry in both formats, worked out.
// law: of `TableRepresents`
pub fn examples()
    ensures parts { PartExamples }
    ensures tables { TableExamples }
{}
