// Lists that are configurations, lists of configurations, and the errors of other lists.
use crate::cases::{Case, all_hold, has_memory, is_so};
use crate::items::{config_of, put, try_config};
use configurations::{Config, ConfigError, Configs, Epoch, NodeId};
use std::alloc::Global;
use std::process::Abort;

const SIXTEEN: &[u16] = &[2, 3, 4, 5, 6, 7, 8, 9, 10, 11, 12, 13, 14, 15, 16, 17];

const SEVENTEEN: &[u16] = &[1, 2, 3, 4, 5, 6, 7, 8, 9, 10, 11, 12, 13, 14, 15, 16, 17];

/// A list of ids, and its error.
struct IdList(&'static [u16], Option<ConfigError>);

impl Case for IdList {
    fn holds(&self, rt: &impl Abort, alloc: Global) -> bool {
        let found = try_config(rt, alloc, self.0).err();
        has_memory(rt, found == Some(ConfigError::Memory));
        found == self.1
    }
}

static IDS: [IdList; 8] = [
    IdList(&[1], None),
    IdList(&[3, 65535, 1], None),
    IdList(SIXTEEN, None),
    IdList(&[], Some(ConfigError::Empty)),
    IdList(&[1, 2, 1], Some(ConfigError::Repeated)),
    IdList(&[0, 0], Some(ConfigError::Repeated)),
    IdList(SEVENTEEN, Some(ConfigError::TooMany)),
    IdList(&[1, 0], Some(ConfigError::BadId)),
];

#[test]
fn ids(rt: HostRuntime) {
    all_hold(&rt, rt.alloc(), &IDS);
}

/// A list of configurations, and its error.
struct ConfigList(&'static [&'static [u16]], Option<ConfigError>);

impl Case for ConfigList {
    fn holds(&self, rt: &impl Abort, alloc: Global) -> bool {
        let mut configs = Vec::new(alloc);
        for ids in self.0 {
            let config = config_of(rt, alloc, *ids);
            put(rt, &mut configs, config);
        }
        Configs::new(configs).err() == self.1
    }
}

/// Sixteen configurations, each without the first node of the one before.
const SHRINKING: &[&[u16]] = &[
    &[2, 3, 4, 5, 6, 7, 8, 9, 10, 11, 12, 13, 14, 15, 16, 17],
    &[3, 4, 5, 6, 7, 8, 9, 10, 11, 12, 13, 14, 15, 16, 17],
    &[4, 5, 6, 7, 8, 9, 10, 11, 12, 13, 14, 15, 16, 17],
    &[5, 6, 7, 8, 9, 10, 11, 12, 13, 14, 15, 16, 17],
    &[6, 7, 8, 9, 10, 11, 12, 13, 14, 15, 16, 17],
    &[7, 8, 9, 10, 11, 12, 13, 14, 15, 16, 17],
    &[8, 9, 10, 11, 12, 13, 14, 15, 16, 17],
    &[9, 10, 11, 12, 13, 14, 15, 16, 17],
    &[10, 11, 12, 13, 14, 15, 16, 17],
    &[11, 12, 13, 14, 15, 16, 17],
    &[12, 13, 14, 15, 16, 17],
    &[13, 14, 15, 16, 17],
    &[14, 15, 16, 17],
    &[15, 16, 17],
    &[16, 17],
    &[17],
];

static LISTS: [ConfigList; 8] = [
    ConfigList(&[&[1]], None),
    ConfigList(&[&[1, 2, 3], &[1, 3], &[3]], None),
    ConfigList(&[], Some(ConfigError::Empty)),
    ConfigList(&[&[1, 2], &[1, 2]], Some(ConfigError::NotSmaller)),
    ConfigList(&[&[1, 2, 3], &[3, 1]], Some(ConfigError::NotInOrder)),
    ConfigList(&[&[1, 2], &[3]], Some(ConfigError::NotInOrder)),
    ConfigList(
        &[&[1, 2, 3], &[3, 1], &[3, 1]],
        Some(ConfigError::NotSmaller),
    ),
    ConfigList(SHRINKING, None),
];

#[test]
fn lists(rt: HostRuntime) {
    all_hold(&rt, rt.alloc(), &LISTS);
}

fn plain(id: Option<NodeId>) -> Option<u16> {
    match id {
        Some(id) => Some(id.get()),
        None => None,
    }
}

/// A node, its neighbours in the configuration 5, 2, 9, and whether that has it.
struct Neighbour(u16, Option<u16>, Option<u16>, bool);

impl Neighbour {
    fn is_in(&self, config: &Config) -> bool {
        let Some(id) = NodeId::new(self.0) else {
            return false;
        };
        let (before, after) = (plain(config.before(id)), plain(config.after(id)));
        before == self.1 && after == self.2 && config.has(id) == self.3
    }
}

impl Case for Neighbour {
    fn holds(&self, rt: &impl Abort, alloc: Global) -> bool {
        let config = config_of(rt, alloc, &[5, 2, 9]);
        let is_in = self.is_in(&config);
        drop(config);
        is_in
    }
}

static NEIGHBOURS: [Neighbour; 4] = [
    Neighbour(5, None, Some(2), true),
    Neighbour(2, Some(5), Some(9), true),
    Neighbour(9, Some(2), None, true),
    Neighbour(7, None, None, false),
];

#[test]
fn neighbours(rt: HostRuntime) {
    all_hold(&rt, rt.alloc(), &NEIGHBOURS);
}

/// Whether a configuration has its head and its tail, and a copy of it the ids.
fn has_ends(rt: &impl Abort, config: &Config) -> bool {
    let copy = config.clone().expect(rt, "memory");
    let len = copy.ids().len();
    drop(copy);
    config.head().get() == 5 && config.tail().get() == 9 && len == 3
}

#[test]
fn head_and_tail(rt: HostRuntime) {
    let config = config_of(&rt, rt.alloc(), &[5, 2, 9]);
    let has_ends = has_ends(&rt, &config);
    drop(config);
    is_so(&rt, has_ends, "other ends");
}

#[test]
fn epochs(rt: HostRuntime) {
    is_so(&rt, Epoch::new(15).is_some(), "15 is an epoch");
    is_so(&rt, Epoch::new(16).is_none(), "16 is none");
}
