// A configuration: the nodes of a chain, from head to tail.
ghost use Rattle.std.specs.Prelude.{◌≡◌, ◌⊎◌, ◌↔◌, ◌++◌, ℕ, List, true};
ghost use Rattle.std.specs.Prelude.{IfOk, IfErr, OnOk, IfSome, IsSomeAnd, IsFalse};
ghost use Rattle.configurations.specs.NodeLists.{is_head, is_tail, predecessor, successor};
ghost use Rattle.kv_types.specs.{AllDifferent, has, is_part};
ghost use Rattle.configurations.specs.NodeLists.{leaves_out};
ghost use Rattle.configurations.specs.Configs.{IsConfig};
ghost use Rattle.configurations.specs.Refusals.{IdsHave, IsLeast};
ghost use Rattle.configurations.specs.Spelling.{config_text};

use crate::reading::ids_of;
use crate::{ConfigError, NodeId};
use std::alloc::{AllocError, Global};
use std::marker::Model;

/// The greatest number of nodes in a configuration.
const MAX_NODES: usize = 16;

/// The nodes of a chain, from its head to its tail: 1 to 16 different ids.
#[derive(Debug, Drop)]
pub struct Config {
    ids: Vec<NodeId>,
}

impl Model for Config {
    ghost use Rattle.std.specs.Prelude.{List, ℕ};
    ghost use Rattle.configurations.specs.Configs.{IsConfig};

    ghost Value = { List ℕ };

    ghost view = { λ config. config.ids.items };

    ghost invariant = { λ config. IsConfig config.ids.items };
}

// Whether an id occurs twice in the list.
fn has_repeated(ids: &[u16]) -> bool
    ensures { IsFalse result ↔ AllDifferent ids.now }
{
    match ids {
        [] => false,
        [first, later @ ..] => later.contains(first) || has_repeated(later),
    }
}

fn before_in(ids: &[NodeId], id: NodeId) -> Option<NodeId>
    ensures { result ≡ predecessor ids.now id }
{
    match ids {
        [first, next, ..] if *next == id => Some(*first),
        [_, later @ ..] => before_in(later, id),
        [] => None,
    }
}

fn after_in(ids: &[NodeId], id: NodeId) -> Option<NodeId>
    ensures { result ≡ successor ids.now id }
{
    match ids {
        [first, next, ..] if *first == id => Some(*next),
        [_, later @ ..] => after_in(later, id),
        [] => None,
    }
}

// Whether the ids are the others with some left out, or none.
fn is_part(ids: &[NodeId], others: &[NodeId]) -> bool
    ensures { result ≡ is_part ids.now others.now }
{
    let [first, later @ ..] = ids else {
        return true;
    };
    let [other, rest @ ..] = others else {
        return false;
    };
    is_part(if first == other { later } else { ids }, rest)
}

impl Config {
    /// Checks and builds a configuration of these ids, the head first.
    pub fn new(alloc: Global, ids: Vec<u16>) -> Result<Config, ConfigError>
        ensures made { IfOk result (λ config. (config ≡ ids.items) × IsConfig config) }
        ensures refused { IfErr result (λ e.
            (e ≡ ConfigError.Memory) ⊎ IsLeast (λ fault. IdsHave fault ids.items) e) }
        ensures each { IsConfig ids.items → IfErr result (λ e. e ≡ ConfigError.Memory) }
    {
        if ids.is_empty() {
            return Err(ConfigError::Empty);
        }
        if has_repeated(&ids) {
            return Err(ConfigError::Repeated);
        }
        if ids.len() > MAX_NODES {
            return Err(ConfigError::TooMany);
        }
        let mut nodes = Vec::new(alloc);
        for &id in &ids {
            let Some(node) = NodeId::new(id) else {
                return Err(ConfigError::BadId);
            };
            nodes.push(node)?;
        }
        Ok(Config { ids: nodes })
    }

    /// The ids, from the head to the tail.
    pub fn ids(&self) -> &[NodeId]
        ensures ids { result.now ≡ self.now }
        ensures is { IsConfig self.now }
    {
        &self.ids
    }

    /// The first node.
    pub fn head(&self) -> NodeId
        ensures { is_head self.now result ≡ true }
    {
        self.ids[0]
    }

    /// The last node.
    pub fn tail(&self) -> NodeId
        ensures { is_tail self.now result ≡ true }
    {
        let ids = self.ids();
        ids[ids.len() - 1]
    }

    /// The predecessor of this node, just before it in the chain.
    pub fn before(&self, id: NodeId) -> Option<NodeId>
        ensures { result ≡ predecessor self.now id }
    {
        before_in(&self.ids, id)
    }

    /// The successor of this node, just after it in the chain.
    pub fn after(&self, id: NodeId) -> Option<NodeId>
        ensures { result ≡ successor self.now id }
    {
        after_in(&self.ids, id)
    }

    /// Whether the configuration has this node.
    pub fn has(&self, id: NodeId) -> bool
        ensures { result ≡ has self.now id }
    {
        self.ids.contains(&id)
    }

    /// Whether this is the other configuration, or that one with nodes left out.
    pub fn is_part_of(&self, whole: &Config) -> bool
        ensures { result ≡ is_part self.now whole.now }
    {
        is_part(&self.ids, &whole.ids)
    }

    /// Whether this is the other configuration with at least one node left out.
    pub fn leaves_out(&self, whole: &Config) -> bool
        ensures { result ≡ leaves_out self.now whole.now }
    {
        self.is_part_of(whole) && self.ids.len() < whole.ids.len()
    }

    /// Spells the configuration behind what `out` holds.
    pub fn spell_into(&self, out: &mut Vec<u8>) -> Result<(), AllocError>
        ensures spelled { OnOk result (out.new.items ≡ out.old.items ++ config_text self.now) }
        ensures is { IsConfig self.now }
    {
        let ids = self.ids();
        out.push(ids.len() as u8)?;
        for id in ids {
            out.extend_from_slice(&id.get().to_be_bytes())?;
        }
        Ok(())
    }

    /// The configuration at the front of the bytes, and the bytes behind it, if there is one.
    pub fn read_from(alloc: Global, bytes: &[u8]) -> Result<Option<(Config, &[u8])>, AllocError>
        ensures found { IfOk result (λ found. IfSome found
            (λ x. (bytes.now ≡ config_text x.0 ++ x.1.now) × IsConfig x.0)) }
        ensures each { (ids rest : List ℕ) → IsConfig ids → bytes.now ≡ config_text ids ++ rest →
            IfOk result (λ found. IsSomeAnd found (λ x. (x.0 ≡ ids) × (x.1.now ≡ rest))) }
    {
        let [count, rest @ ..] = bytes else {
            return Ok(None);
        };
        let Some((ids, rest)) = ids_of(alloc, *count, rest)? else {
            return Ok(None);
        };
        match Config::new(alloc, ids) {
            Ok(config) => Ok(Some((config, rest))),
            Err(error) => match error {
                ConfigError::Memory => Err(AllocError),
                _ => Ok(None),
            },
        }
    }

    /// A copy, with memory of its own.
    pub fn clone(&self) -> Result<Config, AllocError>
        ensures { IfOk result (λ config. config ≡ self.now) }
    {
        Ok(Config {
            ids: self.ids.clone()?,
        })
    }
}
