//! A script is read to its end, or to a line that is too long, or one too many.
ghost use Rattle.std.specs.Prelude.{◌≡◌, ◌≢◌, ◌≤◌, ◌<◌, [], take, length};
ghost use Rattle.std.specs.Prelude.{IfOk, IfErr, IfSome, MatchOption};
ghost use Rattle.std.specs.IoError.{error_kind};
ghost use Rattle.std.specs.Io.KnownBytes.{Consumes, IsAtEnd};
ghost use Rattle.scripts.specs.Beginnings.{IsEnough};
ghost use Rattle.program.specs.Failures.{IsOfInput};
ghost use Rattle.program.specs.Readings.{EndsInTime};
ghost use Rattle.program.specs.declared.failure.Failure.TheVariants.{Memory, Unreadable};

use crate::failure::Failure;
use scripts::Extent;
use std::alloc::Global;
use std::io::{self, ErrorKind, Read};

/// The most bytes that are read at once.
const CHUNK: usize = 8192;

/// The failure of a script that could not be read for this error.
fn reading_failure(error: &io::Error) -> Failure
    ensures memory { error_kind error.now ≡ ErrorKind.OutOfMemory → result ≡ Memory }
    ensures unreadable { error_kind error.now ≢ ErrorKind.OutOfMemory → result ≡ Unreadable }
    ensures cause { IsOfInput result }
{
    if error.kind() == ErrorKind::OutOfMemory {
        Failure::Memory
    } else {
        Failure::Unreadable
    }
}

/// How many bytes were read into a chunk, unless none is left: 0 where the call was interrupted.
fn read_some<R: Read>(input: &mut R, chunk: &mut [u8]) -> Result<Option<usize>, Failure>
    requires { 0 < length chunk.old }
    ensures read { IfOk result (λ found. MatchOption found
        (Consumes (R.remaining input.old) (R.remaining input.new) []
        × IsAtEnd (R.remaining input.new))
        (λ count. (count ≤ length chunk.new)
        × Consumes (R.remaining input.old) (R.remaining input.new) (take count chunk.new))) }
    ensures cause { IfErr result IsOfInput }
{
    match input.read(chunk) {
        Ok(0) => Ok(None),
        Ok(count) => Ok(Some(count)),
        Err(e) if e.kind() == ErrorKind::Interrupted => Ok(Some(0)),
        Err(e) => Err(reading_failure(&e)),
    }
}

/// The text of a script, or a beginning of it that shows the fault of the whole. No more is read
/// than a piece behind what a script may be.
pub fn script_text<R: Read>(alloc: Global, input: &mut R) -> Result<Vec<u8>, Failure>
    ensures read { IfOk result (λ text.
        IfSome (R.remaining input.old) (λ whole. IsEnough whole text.items)) }
    ensures end { IfOk result (λ text. EndsInTime text.items
        × Consumes (R.remaining input.old) (R.remaining input.new) text.items) }
    ensures cause { IfErr result IsOfInput }
{
    let mut text = Vec::new(alloc);
    let mut extent = Extent::new();
    let mut chunk = [0; CHUNK];
    for _ in 0..u64::MAX {
        let Some(count) = read_some(input, &mut chunk)? else {
            return Ok(text);
        };
        text.extend_from_slice(&chunk[..count])?;
        match extent.after(&chunk[..count]) {
            Some(after) => extent = after,
            None => return Ok(text),
        }
    }
    Err(Failure::Unreadable)
}
