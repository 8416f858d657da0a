//! What a script sets up before its first statement that is more than a look.
use configurations::Configs;
use kv_types::Limits;

/// The configurations of a chain in order, and the limits of its nodes.
#[derive(Drop)]
pub struct Setup {
    pub configs: Configs,
    pub limits: Limits,
}
