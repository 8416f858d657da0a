//! Lists that mostly have one item.
ghost use Rattle.std.specs.Prelude.{◌≡◌, [], ◌∷◌, ◌++◌, OnErr, OnOk};
ghost use Rattle.chain_core.specs.ShortLists.{items_held};

use std::alloc::{AllocError, Global};
use std::marker::Model;
use std::mem;
use std::ops::DerefSlice;

/// How a short list holds its items.
#[derive(Drop)]
pub enum HeldItems<T> {
    None,
    One([T; 1]),
    Many(Vec<T>),
}

/// Items in order. One item, or none, takes no memory beside the value.
#[derive(Drop)]
pub struct ShortList<T> {
    held: HeldItems<T>,
}

impl<T> Model for ShortList<T> {
    ghost use Rattle.std.specs.Prelude.{List};
    ghost use Rattle.chain_core.specs.ShortLists.{items_held};

    ghost Value = { List T };

    ghost view = { λ list. items_held list.held };
}

/// The item of a short list that holds one.
pub fn only_item<T>(one: [T; 1]) -> T
    ensures { result ∷ [] ≡ one }
{
    let [item] = one;
    item
}

impl<T: Drop> ShortList<T> {
    /// No items.
    pub fn new() -> ShortList<T>
        ensures { result ≡ [] }
    {
        let held = HeldItems::None;
        ShortList { held }
    }

    /// This item alone.
    pub fn one(item: T) -> ShortList<T>
        ensures { result ≡ item ∷ [] }
    {
        let held = HeldItems::One([item]);
        ShortList { held }
    }

    /// Adds an item behind the others. A refusal changes nothing.
    pub fn push(&mut self, alloc: Global, item: T) -> Result<(), AllocError>
        ensures pushed { OnOk result (self.new ≡ self.old ++ item ∷ []) }
        ensures refused { OnErr result (self.new ≡ self.old) }
    {
        match &mut self.held {
            HeldItems::None => self.held = HeldItems::One([item]),
            HeldItems::One(_) => {
                // room for both, so that neither push fails
                let mut all = Vec::with_capacity(alloc, 2)?;
                if let HeldItems::One(one) = mem::replace(&mut self.held, HeldItems::None) {
                    all.push(only_item(one))?;
                }
                all.push(item)?;
                self.held = HeldItems::Many(all);
            }
            HeldItems::Many(all) => all.push(item)?,
        }
        Ok(())
    }

    /// The items, in order.
    pub fn as_slice(&self) -> &[T]
        ensures { result.now ≡ self.now }
    {
        match &self.held {
            HeldItems::None => &[],
            HeldItems::One(one) => one.as_slice(),
            HeldItems::Many(all) => all.as_slice(),
        }
    }

    /// The items as they are held, for those who take them one by one.
    pub fn into_held(self) -> HeldItems<T>
        ensures { items_held result ≡ self }
    {
        self.held
    }
}

impl<T: Drop> DerefSlice for ShortList<T> {
    type Elem = T;

    ghost deref_gives = { λ list items. items ≡ list };

    fn deref(&self) -> &[T] {
        self.as_slice()
    }
}
