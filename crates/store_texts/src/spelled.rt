//! Byte strings, as scripts spell them.
ghost use Rattle.std.specs.Prelude.{Some};
ghost use Rattle.script_words.specs.Words.{bytes_text, HasPlainFront};

use script_words::split_plain;
use std::fmt;

/// The bytes at the front that stand for themselves, as text, and what follows them.
fn plain_front(bytes: &[u8]) -> (&str, &[u8])
    ensures { HasPlainFront bytes.now result.0.now result.1.now }
{
    let (front, behind) = split_plain(bytes);
    (str::from_utf8(front).unwrap(), behind)
}

/// A byte string, as a script spells it.
#[derive(Clone, Copy)]
pub struct Spelled<'a>(pub &'a [u8]);

impl fmt::Display for Spelled<'_> {
    ghost output = { λ s. Some (bytes_text s.0.now) };

    fn fmt<W: fmt::Write>(&self, f: &mut fmt::Formatter<W>) -> fmt::Result {
        if self.0.is_empty() {
            return f.write_str("@");
        }
        let mut rest = self.0;
        while let [byte, after @ ..] = rest {
            let (plain, behind) = plain_front(rest);
            if plain.is_empty() {
                let byte = *byte;
                write!(f, "%{byte:02x}")?;
                rest = after;
            } else {
                f.write_str(plain)?;
                rest = behind;
            }
        }
        Ok(())
    }
}
