//! Laws of the definitions that contracts use. The functions do nothing: their clauses are the
//! laws.
ghost use Rattle.store_tables.specs.LevelTables.{FlushedTablesRise, LinesInOrderRise};
ghost use Rattle.store_tables.specs.LevelTables.{TableLookUpsAreMaps, TablesFindForStores};
ghost use Rattle.store_tables.specs.MergeTables.{ReplacedLinesName, ReplacedTablesAreEdited};
ghost use Rattle.store_tables.specs.RangeReads.{VersionsNameOwnFiles};

/// Tables stand in order of level where their lines in a manifest stand in order, and with a table
/// of level 0 more.
// law: of `LevelsRise`
pub fn levels_rise()
    ensures lines { LinesInOrderRise }
    ensures flushed { FlushedTablesRise }
{}

/// Where memory has no entry of a key, what a lookup in the tables finds is what one in the store
/// finds, and so it is what the map has.
// law: of `TablesFind`
pub fn table_look_ups_are_maps()
    ensures store { TablesFindForStores }
    ensures maps { TableLookUpsAreMaps }
{
    store_model::look_ups_are_maps(); // law: what a store finds first is what the map has
}

/// The tables that the lines of a version name have files of their own.
// law: of `HaveOwnFiles`
pub fn versions_name_own_files()
    ensures { VersionsNameOwnFiles }
{}

/// With some tables given up and others added, each at its place, tables are edited as the model
/// has it, and the lines of a version that is edited so name them.
// law: of `tables_after`
pub fn replaced_tables_are_edited()
    ensures edited { ReplacedTablesAreEdited }
    ensures lines { ReplacedLinesName }
{}
