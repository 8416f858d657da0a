// The configuration service's list: each configuration has fewer nodes than the one before.
ghost use Rattle.std.specs.Prelude.{◌≡◌, ◌<◌, ◌≤◌, length, nat_lt};
ghost use Rattle.std.specs.Prelude.{IfOk, IfErr, IsTrue, MatchOption};
ghost use Rattle.configurations.specs.NodeLists.{Lawful, at_epoch};
ghost use Rattle.configurations.specs.Checks.{each_later, is_smaller, is_in_order};
ghost use Rattle.configurations.specs.Refusals.{ListHas, IsLeast};

use crate::{Config, ConfigError, Epoch};
use kv_types::laws::is_part_decides;
use std::alloc::{AllocError, Global};
use std::marker::Model;

/// The greatest number of configurations.
const MAX_CONFIGS: usize = 16;

/// The configuration service's list: 1 to 16 configurations, each later one with nodes left out.
#[derive(Debug, Drop)]
pub struct Configs {
    configs: Vec<Config>,
}

impl Model for Configs {
    ghost use Rattle.std.specs.Prelude.{List, ℕ};
    ghost use Rattle.configurations.specs.NodeLists.{Lawful};

    ghost Value = { List (List ℕ) };

    ghost view = { λ configs. configs.configs.items };

    ghost invariant = { λ configs. Lawful configs.configs.items };
}

// Whether each later configuration has fewer nodes.
fn all_smaller(configs: &[Config]) -> bool
    ensures smaller { result ≡ each_later is_smaller configs.now }
    ensures some { IsTrue result → IsTrue (each_later (λ c d. nat_lt 0 (length d)) configs.now) }
{
    match configs {
        [first, next, ..] if next.ids().len() >= first.ids().len() => false,
        [_, later @ ..] => all_smaller(later),
        [] => true,
    }
}

// Whether each later configuration is the one before it with nodes left out.
fn all_in_order(configs: &[Config]) -> bool
    ensures { result ≡ each_later is_in_order configs.now }
{
    match configs {
        [first, next, ..] if !next.is_part_of(first) => false,
        [_, later @ ..] => all_in_order(later),
        [] => true,
    }
}

impl Configs {
    /// Checks and builds a list of these configurations, that of epoch 0 first.
    pub fn new(configs: Vec<Config>) -> Result<Configs, ConfigError>
        ensures made { IfOk result (λ it. (it ≡ configs.items) × Lawful configs.items) }
        ensures refused { IfErr result (IsLeast (λ fault. ListHas fault configs.items)) }
    {
        let Some(first) = configs.first() else {
            return Err(ConfigError::Empty);
        };
        let _ids = first.ids();
        is_part_decides(); // law: the test of a part decides
        if !all_smaller(&configs) {
            return Err(ConfigError::NotSmaller);
        }
        if !all_in_order(&configs) {
            return Err(ConfigError::NotInOrder);
        }
        if configs.len() > MAX_CONFIGS {
            return Err(ConfigError::TooMany);
        }
        Ok(Configs { configs })
    }

    /// The configuration of epoch 0, with which nodes are created.
    pub fn first(&self) -> &Config
        ensures first { result.now ≡ at_epoch self.now 0 }
        ensures lawful { Lawful self.now }
    {
        &self.configs[0]
    }

    /// The configuration of an epoch, where the list has one.
    pub fn at(&self, epoch: Epoch) -> Option<&Config>
        ensures { MatchOption result (length self.now ≤ epoch)
            (λ it. (epoch < length self.now) × (it.now ≡ at_epoch self.now epoch)) }
    {
        self.configs.get(epoch.get() as usize)
    }

    /// A copy, with memory of its own.
    pub fn clone(&self, alloc: Global) -> Result<Configs, AllocError>
        ensures { IfOk result (λ copy. copy ≡ self.now) }
    {
        let mut configs = Vec::new(alloc);
        for config in &self.configs {
            configs.push(config.clone()?)?;
        }
        Ok(Configs { configs })
    }
}
