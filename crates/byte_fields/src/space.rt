//! Spaces of stored keys.
ghost use Rattle.std.specs.Prelude.{◌≡◌};
ghost use Rattle.byte_fields.specs.StoredKeys.{space_number};

/// The space of a stored key. Each key of a row stands before each key of a mark.
#[derive(Clone, Copy, Debug, PartialEq, Eq)]
pub enum Space {
    /// The keys of rows.
    Rows,
    /// The keys of marks: of each client its number.
    Marks,
}

impl Space {
    /// The number of the space, which stands before its keys.
    #[inline(always)]
    pub fn number(self) -> u8
        ensures { result ≡ space_number self }
    {
        match self {
            Space::Rows => 0,
            Space::Marks => 1,
        }
    }
}
