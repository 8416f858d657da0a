//! Laws of runs. Each function does nothing: its contract is the law.
ghost use Rattle.lab.specs.FaultIncidents.{FaultsAreDetermined, StopsAreDetermined};

/// The last disks of a run tell the faults of its events.
pub fn faults_are_determined()
    ensures { FaultsAreDetermined }
{}

/// The disk that a stop event left tells its junk.
pub fn stops_are_determined()
    ensures { StopsAreDetermined }
{}
