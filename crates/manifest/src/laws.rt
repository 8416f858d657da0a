//! Laws of the definitions that contracts use. The functions do nothing: their clauses are the
//! laws.
ghost use Rattle.manifest.specs.Examples.{FirstSlotIs, OldSlotIs, TableIs};
ghost use Rattle.manifest.specs.Laws.{HeldVersionIsLeft, HeldVersionStays};
ghost use Rattle.manifest.specs.Laws.{FormatOneIsOld, FormatsAreApart, OldStoresAreApart};
ghost use Rattle.manifest.specs.Laws.{VersionIsOne, VersionsAreCreated, VersionsAreLawful};
ghost use Rattle.manifest.specs.Laws.{VersionsAreLawfulIn};
ghost use Rattle.manifest.specs.Manifests.{ManifestHasSlots, NoRoomIsFull, SlotsReachGates};

use record_log::{gates_are_in_files, records_are_unique};
use version_edits::laws::{fit_edits_are_short, histories_are_lawful};
pub use version_edits::laws::{changes_differ, edits_keep_versions};

/// The files that a manifest changes are the two slots.
pub fn manifest_has_slots()
    ensures { ManifestHasSlots }
{}

/// The files represent one version at most, in one format, and a lawful one, of a store that was
/// created. Files of an old store, which was created too, represent none in format 2.
pub fn version_is_one()
    ensures one { VersionIsOne }
    ensures formats { FormatsAreApart }
    ensures format_1 { FormatOneIsOld }
    ensures lawful { VersionsAreLawful }
    ensures each_lawful { VersionsAreLawfulIn }
    ensures created { VersionsAreCreated }
    ensures old { OldStoresAreApart }
{
    changes_differ(); // law: no two edits have one spelling in a format
    histories_are_lawful(); // law: edits of which each may be taken give a version
    records_are_unique(); // law: bytes represent one list of records at most
}

/// Whatever a crash leaves of the slots of an open manifest represents its version, and with the
/// same slots it holds the same one.
pub fn held_versions_are_left()
    ensures left { HeldVersionIsLeft }
    ensures same { HeldVersionStays }
{}

/// The slot that counts reaches to its closed gate, and an edit lacks room only where it is full.
pub fn slots_reach_gates()
    ensures reach { SlotsReachGates }
    ensures full { NoRoomIsFull }
{
    gates_are_in_files(); // law: a log's gate is within its file
    fit_edits_are_short(); // law: an edit that may be taken is no longer than a record may be
}

/// A new slot, the same in format 1, a table that is added and one that is given up, byte by byte.
pub fn examples()
    ensures slot { FirstSlotIs }
    ensures old { OldSlotIs }
    ensures table { TableIs }
{}
