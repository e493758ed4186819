//! What an image holds, in memory.

use xr_group::Group;
use xr_maps::Maps;

/// The file maps of an image, and its groups in the order of their numbers.
#[derive(Drop)]
pub struct Loaded {
    pub maps: Maps,
    pub groups: Vec<Group>,
}
