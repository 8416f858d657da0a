// What a manifest names.
ghost use Rattle.std.specs.Prelude.{◌≡◌, IfOk};
ghost use Rattle.version_edits.specs.Versions.{first_version};

use crate::{LogLine, TableLine};
use configurations::{Config, NodeId};
use std::alloc::{AllocError, Global};
use std::marker::Model;

/// What a manifest names: the node and its configuration, its numbers, its logs and its tables.
#[derive(Drop)]
pub struct StoreVersion {
    pub id: NodeId,
    pub next_file: u64,
    pub floor: u64,
    pub flushed: u64,
    pub epoch: u32,
    pub config: Config,
    pub logs: Vec<LogLine>,
    pub tables: Vec<TableLine>,
}

impl Model for StoreVersion {
    ghost use Rattle.version_edits.specs.Versions.{NodeVersion};
    ghost use Rattle.version_edits.specs.Lawful.{IsVersion};

    ghost Value = { NodeVersion };

    ghost view = { λ version. record {
      id = version.id;
      version = record {
        next_file = version.next_file;
        floor = version.floor;
        flushed = version.flushed;
        epoch = version.epoch;
        ids = version.config;
        logs = version.logs.items;
        tables = version.tables.items;
      };
    } };

    ghost invariant = { λ version. IsVersion (record {
      next_file = version.next_file;
      floor = version.floor;
      flushed = version.flushed;
      epoch = version.epoch;
      ids = version.config;
      logs = version.logs.items;
      tables = version.tables.items;
    }) };
}

/// The version of a new node: log 3 from batch 1, and no table.
pub fn first_version(alloc: Global, id: NodeId, config: &Config) -> Result<StoreVersion, AllocError>
    ensures { IfOk result (λ version. version ≡ first_version id config.now) }
{
    let _ids = config.ids();
    let mut logs = Vec::new(alloc);
    logs.push(LogLine { file: 3, first: 1 })?;
    Ok(StoreVersion {
        id,
        next_file: 4,
        floor: 0,
        flushed: 0,
        epoch: 0,
        config: config.clone()?,
        logs,
        tables: Vec::new(alloc),
    })
}
