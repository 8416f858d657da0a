//! A law of the definitions that contracts use. The function does nothing: its clause is the law.
ghost use Rattle.memtable.specs.Sizes.{EntryBytesAre};

/// What an entry counts beside its key and its value, as a number.
// law: of `ENTRY_BYTES`
pub fn entry_bytes_are()
    ensures { EntryBytesAre }
{}
