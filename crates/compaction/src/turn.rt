// Whose turn it is in a level.
ghost use Rattle.std.specs.Prelude.{◌≡◌, length};

use byte_fields::StoredKey;
use std::alloc::{AllocError, Global};

/// The greatest key of the table that was last merged out of each level since the start.
#[derive(Drop)]
pub struct Turn {
    last: Vec<Option<StoredKey>>,
    ghost levels: { length last.items ≡ 7 },
}

impl Turn {
    ghost use Rattle.std.specs.Prelude.{ℕ, ◌≤◌, IfOk, None, Some, option_map};
    ghost use Rattle.std.specs.Prelude.{◌==◌, if◌then◌else◌};
    ghost use Rattle.compaction.specs.Turns.{turn_key};

    /// No table was merged out of any level.
    pub fn new(alloc: Global) -> Result<Turn, AllocError>
        ensures { IfOk result (λ turn. (level : ℕ) → turn_key turn level ≡ None) }
    {
        let mut last = Vec::new(alloc);
        for _ in 0..7u8 {
            last.push(None)?;
        }
        Ok(Turn { last })
    }

    /// The greatest key of the table that was last merged out of the level.
    pub fn after(&self, level: u8) -> Option<&StoredKey>
        ensures { option_map (λ key. key.now) result ≡ turn_key self.now level }
    {
        match self.last.get(level as usize) {
            Some(Some(key)) => Some(key),
            _ => None,
        }
    }

    /// Records that a table with this greatest key is merged out of the level.
    pub fn advance(&mut self, level: u8, key: StoredKey)
        requires { level ≤ 6 }
        ensures { (other : ℕ) → turn_key self.new other
            ≡ (if other == level then Some key else turn_key self.old other) }
    {
        self.last[level as usize] = Some(key);
    }
}
