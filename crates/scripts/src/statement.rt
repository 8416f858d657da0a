//! The statements of a script, and what the reader knows between two lines.
ghost use Rattle.std.specs.Prelude.{◌≡◌, ◌++◌, ℕ, true, false, Option, Some, None};
ghost use Rattle.std.specs.Prelude.{MatchOption, MatchResult, OnOk};
ghost use Rattle.kv_types.specs.{has};
ghost use Rattle.scripts.specs.Faults.{node_fault, place_fault};
ghost use Rattle.scripts.specs.Reading.{HasEpoch, after_item, statements_of};
ghost use Rattle.scripts.specs.Scripts.{begins};

use configurations::{Configs, Epoch, NodeId};
use events::Event;
use kv_types::{KvError, LimitName};
use script_words::{ScriptError, ScriptLimits};
use std::alloc::AllocError;

/// What a statement comes to.
#[derive(Drop)]
pub enum Action {
    /// Something that happens at a node.
    Event(Event),
    /// A key, value or batch that there can't be.
    Invalid(KvError),
    /// The frames that no statement has delivered yet are delivered, up to the bound.
    Flow,
    /// The node tends up to the first tend that does not work, or to the bound.
    Settle(NodeId),
    /// The numbers of the node are shown. Nothing happens.
    Show(NodeId),
}

impl Action {
    /// Whether it is more than a look.
    fn begins(&self) -> bool
        ensures { result ≡ begins self.now }
    {
        !matches!(self, Action::Show(_))
    }
}

/// A statement, and the number of the line where it stands, from 1.
#[derive(Drop)]
pub struct Statement {
    pub line: u32,
    pub action: Action,
}

/// What one line of a script says.
#[derive(Drop)]
pub enum LineItem {
    Skipped,
    /// A limit, and the number that it is to be.
    Limit(LimitName, u64),
    /// The configurations up to this line.
    Config(Configs),
    Asks(Action),
}

/// What stands before a line: the configurations, whether a statement that is more than a look, and
/// the limits; and whether faults may be spelled.
#[derive(Drop)]
pub struct ParserState {
    pub configs: Option<Configs>,
    pub begun: bool,
    pub limits: ScriptLimits,
    pub faults: bool,
}

// The node of this number, if it is one of these.
fn id_in(ids: &[NodeId], node: u64) -> Option<NodeId>
    ensures { MatchOption result (has ids.now node ≡ false)
        (λ id. (id ≡ node) × (has ids.now node ≡ true)) }
{
    match ids {
        [first, ..] if first.get() as u64 == node => Some(*first),
        [_, later @ ..] => id_in(later, node),
        [] => None,
    }
}

impl ParserState {
    /// Adds what this line says to what stands before the next one, and its statement.
    pub fn add(
        &mut self,
        statements: &mut Vec<Statement>,
        line: u32,
        item: LineItem,
    ) -> Result<(), AllocError>
        ensures after { OnOk result (self.new ≡ after_item self.old item) }
        ensures added { OnOk result
            (statements.new.items ≡ statements.old.items ++ statements_of line item) }
    {
        match item {
            LineItem::Skipped => {}
            LineItem::Limit(name, number) => self.limits = self.limits.with(name, number),
            LineItem::Config(configs) => self.configs = Some(configs),
            LineItem::Asks(action) => {
                self.begun = self.begun || action.begins();
                statements.push(Statement { line, action })?;
            }
        }
        Ok(())
    }

    /// The configurations, if there is one.
    pub fn into_configs(self) -> Option<Configs>
        ensures { result ≡ self.configs }
    {
        self.configs
    }

    /// The epoch that a notice may be of here.
    pub fn epoch(&self, number: u64) -> Result<Epoch, ScriptError>
        ensures { MatchResult result
            (λ epoch. (epoch ≡ number) × HasEpoch self.now.configs number)
            (λ e. (named : Option ℕ) →
            place_fault (Some number) self.now.configs named ≡ Some e) }
    {
        let Some(configs) = &self.configs else {
            return Err(ScriptError::OutOfPlace);
        };
        let _first = configs.first(); // law: the list is lawful
        let Ok(number) = u32::try_from(number) else {
            return Err(ScriptError::BadConfiguration);
        };
        match Epoch::new(number) {
            Some(epoch) if configs.at(epoch).is_some() => Ok(epoch),
            _ => Err(ScriptError::BadConfiguration),
        }
    }

    /// The node that a statement may name here.
    pub fn place(&self, node: u64) -> Result<NodeId, ScriptError>
        ensures { MatchResult result
            (λ id. (id ≡ node) × (node_fault self.now.configs (Some node) ≡ None))
            (λ e. node_fault self.now.configs (Some node) ≡ Some e) }
    {
        let Some(configs) = &self.configs else {
            return Err(ScriptError::OutOfPlace);
        };
        match id_in(configs.first().ids(), node) {
            Some(id) => Ok(id),
            None => Err(ScriptError::UnknownNode),
        }
    }
}
