// A change of a version.
use crate::{LogLine, TableLine, TableName};
use configurations::Config;
use std::marker::Model;

/// A change of a version: new numbers and ids, and what is given up and what is added.
#[derive(Drop)]
pub struct VersionEdit {
    pub next_file: u64,
    pub floor: u64,
    pub flushed: u64,
    pub epoch: u32,
    pub config: Config,
    pub logs_gone: Vec<u64>,
    pub logs_added: Vec<LogLine>,
    pub tables_gone: Vec<TableName>,
    pub tables_added: Vec<TableLine>,
}

impl Model for VersionEdit {
    ghost use Rattle.version_edits.specs.Versions.{Change};

    ghost Value = { Change };

    ghost view = { λ edit. record {
      next_file = edit.next_file;
      floor = edit.floor;
      flushed = edit.flushed;
      epoch = edit.epoch;
      ids = edit.config;
      logs_gone = edit.logs_gone.items;
      logs_added = edit.logs_added.items;
      tables_gone = edit.tables_gone.items;
      tables_added = edit.tables_added.items;
    } };
}
