//! Formats of the files of a store.
ghost use Rattle.std.specs.Prelude.{◌≡◌, ◌↔◌, IsTrue};

/// The format of a file: how keys are spelled there. What is written is of format 2.
#[derive(Clone, Copy, Debug)]
pub enum Format {
    /// Each key is that of a row, and stands without the number of its space.
    One,
    /// Each key stands behind the number of its space.
    Two,
}

impl Format {
    /// Whether both are one format.
    pub fn is_same(self, other: Format) -> bool
        ensures { IsTrue result ↔ (self ≡ other) }
    {
        match self {
            Format::One => match other {
                Format::One => true,
                Format::Two => false,
            },
            Format::Two => match other {
                Format::One => false,
                Format::Two => true,
            },
        }
    }
}
