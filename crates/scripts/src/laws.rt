//! What holds of the words of contracts. The functions do nothing: their clauses are the laws.
ghost use Rattle.scripts.specs.Laws.{StringsDiffer, EditsDiffer, EventsDiffer, ScriptsDiffer};
ghost use Rattle.scripts.specs.Laws.{EventsAreRead, ScriptsAreRead, FaultsAreRefused};

use configurations::laws::test_decides_config;

/// A word spells one byte string at most, and one edit, words one event, and lines one script.
pub fn spellings_differ()
    ensures strings { StringsDiffer }
    ensures edits { EditsDiffer }
    ensures events { EventsDiffer }
    ensures scripts { ScriptsDiffer }
{}

/// The words that spell an event have no fault of their own, though their place may be one, and a
/// script has none, where they may spell what they do.
pub fn scripts_are_read()
    ensures events { EventsAreRead }
    ensures scripts { ScriptsAreRead }
{
    test_decides_config(); // law: the test succeeds exactly for the configurations
}

/// Where faults may not be spelled, a script without a fault spells none, and no word for what a
/// stop leaves.
pub fn faults_are_refused()
    ensures { FaultsAreRefused }
{}
