//! Laws of the definitions that contracts use. The functions do nothing: their clauses are the
//! laws.
ghost use Rattle.embedded_store.specs.Cursors.{CursorsOutliveWrites};

/// What a cursor has read stays of its map while more batches are written.
pub fn cursors_outlive_writes()
    ensures { CursorsOutliveWrites }
{}
