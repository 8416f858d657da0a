//! Bytes go out whole, or else a beginning of them.
ghost use Rattle.std.specs.Prelude.{◌≤◌, length, take, OnOk, OnErr, IfOk};
ghost use Rattle.std.specs.Io.KnownBytes.{Appends, Keeps};
ghost use Rattle.store_texts.specs.Writing.{AppendsPart};

use std::io::{self, ErrorKind, Write};

/// How many of some bytes the output takes at once: none where the call was interrupted.
fn write_some<W: Write>(bytes: &[u8], out: &mut W) -> io::Result<usize>
    ensures bound { IfOk result (λ count. count ≤ length bytes.now) }
    ensures some { IfOk result (λ count.
        Appends (W.contents out.old) (W.contents out.new) (take count bytes.now)) }
    ensures none { OnErr result (Keeps (W.contents out.old) (W.contents out.new)) }
{
    match out.write(bytes) {
        Ok(0) => Err(ErrorKind::WriteZero.into()),
        Ok(count) => Ok(count),
        Err(e) if e.kind() == ErrorKind::Interrupted => Ok(0),
        Err(e) => Err(e),
    }
}

/// Writes the bytes. Where the output takes no more, a beginning of them was written.
fn write_text<W: Write>(bytes: &[u8], out: &mut W) -> io::Result<()>
    ensures whole { OnOk result (Appends (W.contents out.old) (W.contents out.new) bytes.now) }
    ensures part { AppendsPart (W.contents out.old) (W.contents out.new) bytes.now }
{
    let mut written = 0;
    for _ in 0..u64::MAX {
        if written >= bytes.len() {
            return Ok(());
        }
        let count = write_some(&bytes[written..], out)?;
        written += count;
    }
    Err(ErrorKind::WriteZero.into())
}

/// Writes a text, and all of it has then left the writer. Where that takes no more, a beginning of
/// the text was written.
pub fn print<W: Write>(text: &[u8], out: &mut W) -> io::Result<()>
    ensures whole { OnOk result (Appends (W.contents out.old) (W.contents out.new) text.now) }
    ensures part { AppendsPart (W.contents out.old) (W.contents out.new) text.now }
{
    write_text(text, out)?;
    out.flush()
}
