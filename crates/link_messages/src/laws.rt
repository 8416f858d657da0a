//! Laws of the definitions that contracts use. The functions do nothing: their clauses are the
//! laws.
ghost use Rattle.link_messages.specs.Stream.{OneSpelling, OneAnswer, FaultsStay, OneSplit};
ghost use Rattle.link_messages.specs.Stream.{FramesFit, FrameBoundIs};
ghost use Rattle.link_messages.specs.Examples.{FrameExamples};

use configurations::laws::test_decides_config;

/// No spelling is a prefix of another, no two frames have one spelling, and each spelling keeps the
/// limit.
pub fn one_spelling()
    ensures one { OneSpelling }
    ensures fit { FramesFit }
{
    test_decides_config(); // law: the test succeeds exactly for the configurations
}

/// The contract of `FrameReader::next` determines its answer, unless memory runs out. An error
/// stays, whatever bytes follow.
pub fn one_answer()
    ensures one { OneAnswer }
    ensures stays { FaultsStay }
{
    test_decides_config(); // law: the test succeeds exactly for the configurations
}

/// A stream has one list of frames and one rest, however it is cut into pieces.
pub fn one_split()
    ensures { OneSplit }
{
    test_decides_config(); // law: the test succeeds exactly for the configurations
}

/// The limit of a frame as a number.
// law: of `MAX_FRAME`
pub fn frame_bound_is()
    ensures { FrameBoundIs }
{}

/// Small frames, spelled out.
pub fn examples()
    ensures { FrameExamples }
{}
