//! Laws of the definitions that contracts use. The functions do nothing: their clauses are the
//! laws.
ghost use Rattle.version_edits.specs.Edits.{ChangesDiffer};
ghost use Rattle.version_edits.specs.Laws.{EditsKeepVersions, FitEditsAreShort, HistoriesAreLawful};
ghost use Rattle.version_edits.specs.Laws.{LineBoundsAre};

use configurations::laws::test_decides_config;

/// No two edits have one spelling in a format.
pub fn changes_differ()
    ensures { ChangesDiffer }
{
    test_decides_config(); // law: the test succeeds exactly for the configurations
}

/// An edit that a version may take gives a version.
pub fn edits_keep_versions()
    ensures { EditsKeepVersions }
{}

/// An edit that a version may take is no longer than a record of a log may be.
pub fn fit_edits_are_short()
    ensures { FitEditsAreShort }
{}

/// Edits of which each may be taken give a version.
pub fn histories_are_lawful()
    ensures { HistoriesAreLawful }
{}

/// The bounds of a version as numbers.
// law: of `MAX_NEXT` and `MAX_LINES`
pub fn line_bounds_are()
    ensures { LineBoundsAre }
{}
