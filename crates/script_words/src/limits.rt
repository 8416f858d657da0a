//! The limits that a script may set for the stores of its nodes.
ghost use Rattle.std.specs.Prelude.{◌≡◌};
ghost use Rattle.kv_types.specs.Limits.{IsInRange};
ghost use Rattle.script_words.specs.Limits.{AreLimits, default_limits, limit_named, limits_with};

use kv_types::{LimitName, Limits};

/// The limit that a word names.
pub fn limit_of(word: &[u8]) -> Option<LimitName>
    ensures { result ≡ limit_named word.now }
{
    match word {
        b"log" => Some(LimitName::Log),
        b"l0" => Some(LimitName::L0),
        b"table" => Some(LimitName::Table),
        b"level" => Some(LimitName::Level),
        b"cache" => Some(LimitName::Cache),
        _ => None,
    }
}

/// The limits that a script may set: all those of a store.
#[derive(Clone, Copy)]
pub struct ScriptLimits {
    pub log: u64,
    pub l0: u64,
    pub table: u64,
    pub level: u64,
    pub cache: u64,
}

impl Default for ScriptLimits {
    ghost is_default = { λ limits. limits ≡ default_limits };

    fn default() -> ScriptLimits {
        let limits = Limits::default();
        ScriptLimits {
            log: limits.log,
            l0: limits.l0,
            table: limits.table,
            level: limits.level,
            cache: limits.cache,
        }
    }
}

impl ScriptLimits {
    /// These limits, but for one that is set.
    pub fn with(mut self, name: LimitName, number: u64) -> ScriptLimits
        ensures { result ≡ limits_with self name number }
    {
        match name {
            LimitName::Log => self.log = number,
            LimitName::L0 => self.l0 = number,
            LimitName::Table => self.table = number,
            LimitName::Level => self.level = number,
            LimitName::Cache => self.cache = number,
        }
        self
    }

    /// The limits of a store.
    pub fn of_store(self) -> Limits
        requires { IsInRange self.log self.l0 self.table self.level self.cache }
        ensures { AreLimits self result }
    {
        match Limits::new(self.log, self.l0, self.table, self.level, self.cache) {
            Ok(limits) => limits,
            Err(_) => Limits::default(),
        }
    }
}
