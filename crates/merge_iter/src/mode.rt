//! Where a cursor over the entries shown at a number stands.

/// Which entry the cursor stands on.
#[derive(Clone, Copy, Drop)]
pub enum Mode {
    /// The one of the cursor below.
    Inner,
    /// The one that was kept.
    Kept,
    /// None.
    Off,
    /// None since a refusal.
    Broken,
}
