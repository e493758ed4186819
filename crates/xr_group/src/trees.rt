//! The trees of a group, which stand in one pool.
use xr_refcount::Refcount;
use xr_rmap::Rmap;
use xr_space::Space;

/// The free runs by block and by size, the owners and the counts, each by the roots of its trees.
#[derive(Clone, Copy)]
pub struct Trees {
    pub space: Space,
    pub rmap: Rmap,
    pub counts: Refcount,
}
