//! How far the beginning of a script goes, and whether it shows a fault of the whole.
ghost use Rattle.std.specs.Prelude.{◌++◌, ◌∷◌, [], ℕ, List, IfSome, IsNone, MatchOption};
ghost use Rattle.script_words.specs.Lines.{HasNoFeed};
ghost use Rattle.scripts.specs.Beginnings.{HasExtent, HasPassedLimit, IsFaulty, IsWithinLimits};

use crate::reader::{LINE, LINES};
use script_words::ended_line;

/// The number of ended lines of a text, and of the bytes behind the last of them.
#[derive(Clone, Copy)]
pub struct Extent {
    lines: u32,
    line: usize,
}

impl Extent {
    /// The extent of an empty text.
    pub fn new() -> Extent
        ensures extent { HasExtent [] result }
        ensures within { IsWithinLimits result }
    {
        Extent { lines: 0, line: 0 }
    }

    /// The extent behind more bytes of a line, unless it is then too long.
    fn after_part(self, part: &[u8]) -> Option<Extent>
        requires { HasNoFeed part.now }
        ensures extent { (text : List ℕ) → HasExtent text self →
            MatchOption result (IsFaulty (text ++ part.now)) (HasExtent (text ++ part.now)) }
        ensures within { IsWithinLimits self → IfSome result IsWithinLimits }
        ensures refused { (text : List ℕ) → HasExtent text self →
            IsNone result → HasPassedLimit (text ++ part.now) }
    {
        let line = self.line.saturating_add(part.len());
        if line > LINE {
            return None;
        }
        Some(Extent {
            lines: self.lines,
            line,
        })
    }

    /// The extent behind the last bytes of a line and its line feed, unless the line is then too
    /// long, or one too many.
    fn after_line(self, part: &[u8]) -> Option<Extent>
        requires { HasNoFeed part.now }
        ensures extent { (text : List ℕ) → HasExtent text self →
            MatchOption result (IsFaulty (text ++ part.now ++ 10 ∷ []))
            (HasExtent (text ++ part.now ++ 10 ∷ [])) }
        ensures within { IsWithinLimits self → IfSome result IsWithinLimits }
        ensures refused { (text : List ℕ) → HasExtent text self →
            IsNone result → HasPassedLimit (text ++ part.now ++ 10 ∷ []) }
    {
        let extent = self.after_part(part)?;
        if extent.lines >= LINES {
            return None;
        }
        Some(Extent {
            lines: extent.lines + 1,
            line: 0,
        })
    }

    /// The extent behind more bytes, unless a line is then too long, or one too many.
    pub fn after(self, bytes: &[u8]) -> Option<Extent>
        ensures extent { (text : List ℕ) → HasExtent text self →
            MatchOption result (IsFaulty (text ++ bytes.now)) (HasExtent (text ++ bytes.now)) }
        ensures within { IsWithinLimits self → IfSome result IsWithinLimits }
        ensures refused { (text : List ℕ) → HasExtent text self →
            IsNone result → HasPassedLimit (text ++ bytes.now) }
    {
        let mut extent = self;
        let mut rest = bytes;
        while let Some((part, behind)) = ended_line(rest) {
            extent = extent.after_line(part)?;
            rest = behind;
        }
        extent.after_part(rest)
    }
}
