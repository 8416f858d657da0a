// Ranges in memory of their own.
ghost use Rattle.std.specs.Prelude.{◌≡◌, IfOk};

use kv_types::Range;
use std::alloc::{AllocError, Global};
use std::marker::Model;

/// A range in memory of its own, so that no frame is as large as one. Contracts see it as a
/// `Range`.
#[derive(Drop)]
pub struct BoxedRange {
    range: Box<Range>,
}

impl Model for BoxedRange {
    ghost use Rattle.kv_types.specs.Spans.{Span};

    ghost Value = { Span };

    ghost view = { λ it. it.range.value };
}

impl BoxedRange {
    /// This range. Refused where memory runs out.
    pub fn new(alloc: Global, range: Range) -> Result<BoxedRange, AllocError>
        ensures { IfOk result (λ it. it ≡ range) }
    {
        let range = Box::new(alloc, range)?;
        Ok(BoxedRange { range })
    }

    /// The range.
    pub fn as_range(&self) -> &Range
        ensures { result.now ≡ self.now }
    {
        self.range.as_ref()
    }
}
