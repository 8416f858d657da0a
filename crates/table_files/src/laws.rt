//! Laws of the definitions that contracts use. The functions do nothing: their clauses are the
//! laws.
ghost use Rattle.std.specs.Prelude.{Bool, IsTrue};
ghost use Rattle.disk.specs.{IsSame, IsStill, KeepsDisk};
ghost use Rattle.table_files.specs.BlockReads.{KnownBlocksAreAnswered};
ghost use Rattle.table_files.specs.Capacities.{CapacityBoundIs};
ghost use Rattle.table_files.specs.LentFiles.{KeepsFiles};

use disk::Disk;

/// Where the bytes of a file are known to have a block at the place, a read of it answers that
/// block, but for the device and want of memory.
pub fn known_blocks_are_answered()
    ensures { KnownBlocksAreAnswered }
{}

/// The greatest number of blocks that a cache may be made for.
// law: of `MAX_BLOCKS`
pub fn capacity_bound_is()
    ensures { CapacityBoundIs }
{}

/// `KeepsFiles` relates a disk to itself, adds up, and follows from what one call that only reads
/// keeps, whether it failed or not.
pub fn reads_add_up<D: Disk>()
    ensures itself { (a : D) → KeepsFiles D.Disk a a }
    ensures through { (a b c : D) → KeepsFiles D.Disk a b → KeepsFiles D.Disk b c →
        KeepsFiles D.Disk a c }
    ensures call { (a b : D) (failed : Bool) → KeepsDisk D.Disk a b (IsTrue failed) ⊥ IsSame →
        IsStill D.Disk a b → KeepsFiles D.Disk a b }
{}
