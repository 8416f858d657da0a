//! Lists, and configurations as tests make them.

use configurations::{Config, ConfigError};
use std::alloc::Global;
use std::process::Abort;

/// Appends the item.
pub fn put<T: Drop>(rt: &impl Abort, list: &mut Vec<T>, item: T) {
    list.push(item).expect(rt, "memory");
}

/// The configuration of these ids, if that is one.
pub fn try_config(rt: &impl Abort, alloc: Global, ids: &[u16]) -> Result<Config, ConfigError> {
    Config::new(alloc, ids.to_vec(alloc).expect(rt, "memory"))
}

pub fn config_of(rt: &impl Abort, alloc: Global, ids: &[u16]) -> Config {
    try_config(rt, alloc, ids).expect(rt, "a configuration")
}
