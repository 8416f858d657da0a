//! Laws of the definitions that contracts use. The functions do nothing: their clauses are the
//! laws.
ghost use Rattle.chain_core.specs.Steps.{StepsLeave, StandsLast, OneByOne};

/// The persistent state and the snapshots after a step, and the frames that the step sends.
pub fn steps_leave()
    ensures { StepsLeave }
{}

/// An appended batch has the next number.
pub fn stands_last()
    ensures { StandsLast }
{}

/// Batches are sent again one by one, in order of number.
pub fn one_by_one()
    ensures { OneByOne }
{}
