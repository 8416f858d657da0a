//! The names of refusals, drop reasons, causes and faults, as they are printed.
ghost use Rattle.std.specs.Prelude.{◌≡◌};
ghost use Rattle.client.specs.Text.{refusal_text, error_text, reason_text, cause_text};
ghost use Rattle.client.specs.Text.{fault_text, tended_text};

use kv_types::KvError;
use lab::{DropReason, Refusal, Stop, Tended};
use scripts::ScriptError;

/// A refusal's number and name.
pub fn refusal_name(refusal: Refusal) -> &'static str
    ensures { result.now ≡ refusal_text refusal }
{
    match refusal {
        Refusal::NotRunning => "1 NotRunning",
        Refusal::NotHead => "2 NotHead",
        Refusal::TooOld => "3 TooOld",
        Refusal::NotCommitted => "4 NotCommitted",
        Refusal::NoSuchSnapshot => "5 NoSuchSnapshot",
        Refusal::TooManySnapshots => "6 TooManySnapshots",
        Refusal::Removed => "7 Removed",
        Refusal::Exhausted => "8 Exhausted",
        Refusal::OldRequest => "9 OldRequest",
    }
}

/// The number and name of what is wrong with a statement.
pub fn error_name(error: KvError) -> &'static str
    ensures { result.now ≡ error_text error }
{
    match error {
        KvError::KeyTooLong => "1 KeyTooLong",
        KvError::ValueTooLong => "2 ValueTooLong",
        KvError::NoEdits => "3 NoEdits",
        KvError::TooManyEdits => "4 TooManyEdits",
        KvError::BatchTooLong => "5 BatchTooLong",
        KvError::BadBytes => "6 BadBytes",
        KvError::Memory => "7 Memory",
        KvError::BadLimit => "8 BadLimit",
        KvError::BadMark => "9 BadMark",
    }
}

/// The name of a drop reason.
pub fn reason_name(reason: DropReason) -> &'static str
    ensures { result.now ≡ reason_text reason }
{
    match reason {
        DropReason::NotRunning => "NotRunning",
        DropReason::Running => "Running",
        DropReason::Removed => "Removed",
        DropReason::OtherEpoch => "OtherEpoch",
        DropReason::NotPredecessor => "NotPredecessor",
        DropReason::NotSuccessor => "NotSuccessor",
        DropReason::OtherNumber => "OtherNumber",
        DropReason::BadAck => "BadAck",
        DropReason::OldNotice => "OldNotice",
        DropReason::BadNotice => "BadNotice",
        DropReason::NotForNodes => "NotForNodes",
        DropReason::Unreadable => "Unreadable",
    }
}

/// Why a node stopped by itself.
pub fn cause_name(cause: Stop) -> &'static str
    ensures { result.now ≡ cause_text cause }
{
    match cause {
        Stop::Disk => "disk",
        Stop::Damaged => "damaged",
        Stop::Memory => "memory",
        Stop::NotCreated => "not created",
        Stop::OldFormat => "old format",
    }
}

/// What a tend did.
pub fn tended_name(did: Tended) -> &'static str
    ensures { result.now ≡ tended_text did }
{
    match did {
        Tended::Idle => "idle",
        Tended::Worked => "tended",
        Tended::Full => "full",
    }
}

/// What is wrong with a script's line.
pub fn fault_name(fault: ScriptError) -> &'static str
    ensures { result.now ≡ fault_text fault }
{
    match fault {
        ScriptError::LineTooLong => "line too long",
        ScriptError::UnknownStatement => "unknown statement",
        ScriptError::WrongNumberOfWords => "wrong number of words",
        ScriptError::BadNumber => "bad number",
        ScriptError::BadBytes => "bad bytes",
        ScriptError::BadFault => "bad fault",
        ScriptError::OutOfPlace => "out of place",
        ScriptError::BadConfiguration => "bad configuration",
        ScriptError::UnknownNode => "unknown node",
        ScriptError::BadLimit => "bad limit",
        ScriptError::TooManyLines => "too many lines",
        ScriptError::OutOfMemory => "out of memory",
    }
}
