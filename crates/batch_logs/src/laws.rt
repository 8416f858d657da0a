//! Laws of the definitions that contracts use. The function does nothing: its clauses are the laws.
ghost use Rattle.batch_logs.specs.LogExamples.{LaterLogIsBehind, TwoLogsHaveThree};

/// Two logs with three batches, and two of which the second begins with batch 4.
pub fn log_examples()
    ensures three { TwoLogsHaveThree }
    ensures behind { LaterLogIsBehind }
{}
