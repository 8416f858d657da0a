//! Where cursors one after another stand.

/// Where they stand, by the child that stands there.
#[derive(Clone, Copy, Drop)]
pub enum ChildPlace {
    /// Where this child does.
    On(usize),
    /// On no entry.
    Off,
    /// On none since a refusal.
    Broken,
}
