// The plan of a merge.

/// Which tables a merge has as inputs: of level 0 all that are numbered below `below`, the next
/// file of the version that it was picked in; of a deeper level the one of a file. Besides, those
/// of the next level that overlap them.
#[derive(Clone, Copy)]
pub struct Plan {
    pub level: u8,
    pub file: Option<u64>,
    pub below: u64,
}
