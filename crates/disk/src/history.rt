// The values that something had. Only proofs read them: they take no memory and no time.
ghost use Rattle.std.specs.Prelude.{◌≡◌, List, [], ◌∷◌};
ghost use Rattle.std.specs.Borrow.{ftrue};

use std::marker::{Model, PhantomData};

/// A list of values, the latest first.
#[derive(Drop)]
pub struct History<A> {
    of: PhantomData<A>,
    pub ghost past: { List A },
}

impl<A> Model for History<A> {
    ghost also_owns = { λ _. ftrue };
}

impl<A> History<A> {
    pub fn new() -> History<A>
        ensures { result.past ≡ [] }
    {
        History { of: PhantomData }
    }

    /// The same values.
    pub fn copy(&self) -> History<A>
        ensures { result.past ≡ self.now.past }
    {
        History { of: PhantomData }
    }

    /// One value more.
    pub fn with(&self, value: &A) -> History<A>
        ensures { result.past ≡ value.now ∷ self.now.past }
    {
        History { of: PhantomData }
    }
}
