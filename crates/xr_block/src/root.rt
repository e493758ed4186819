//! Where a tree stands in its pool.

/// The root of a tree: its pool block, and how many levels there are below it. It is all that is kept of a tree beside its
/// blocks.
#[derive(Clone, Copy, Debug, PartialEq, Eq)]
pub struct Root {
    pub block: u32,
    pub level: u32,
}
