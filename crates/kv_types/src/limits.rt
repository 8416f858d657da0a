// The limits of a store that its user can set, with their defaults.
ghost use Rattle.std.specs.Prelude.{◌≡◌, IfOk, IfErr};
ghost use Rattle.kv_types.specs.Limits.{IsInRange};

use crate::{KvError, LimitName};

/// Limits of a store: when it flushes and merges, and how many blocks it keeps in memory.
#[derive(Clone, Copy, Debug)]
pub struct Limits {
    /// Size of a log file in bytes above which a flush is due.
    pub log: u64,
    /// Number of tables in level 0 above which a merge is due.
    pub l0: u64,
    /// Bytes of data at which a merge begins a new table.
    pub table: u64,
    /// Size of level 1 in bytes above which a merge is due. The limit of each deeper level is ten
    /// times higher.
    pub level: u64,
    /// Number of blocks that are kept in memory.
    pub cache: u64,
    ghost in_range: { IsInRange log l0 table level cache },
}

impl Limits {
    /// Checks and builds limits; `level` is the limit of level 1.
    pub fn new(log: u64, l0: u64, table: u64, level: u64, cache: u64) -> Result<Limits, KvError>
        ensures made { IfOk result (λ limits. (limits.log ≡ log) × (limits.l0 ≡ l0)
            × (limits.table ≡ table) × (limits.level ≡ level) × (limits.cache ≡ cache)) }
        ensures refused { IfErr result (λ e. (e ≡ KvError.BadLimit)
            × (IsInRange log l0 table level cache → ⊥)) }
    {
        let are_allowed = LimitName::Log.allows(log)
            && LimitName::L0.allows(l0)
            && LimitName::Table.allows(table)
            && LimitName::Level.allows(level)
            && LimitName::Cache.allows(cache);
        if !are_allowed {
            return Err(KvError::BadLimit);
        }
        Ok(Limits {
            log,
            l0,
            table,
            level,
            cache,
        })
    }
}

impl Default for Limits {
    ghost is_default = { λ limits. (limits.log ≡ 4194304) × (limits.l0 ≡ 4)
        × (limits.table ≡ 2097152) × (limits.level ≡ 10485760) × (limits.cache ≡ 256) };

    fn default() -> Limits {
        Limits {
            log: 4194304,
            l0: 4,
            table: 2097152,
            level: 10485760,
            cache: 256,
        }
    }
}
