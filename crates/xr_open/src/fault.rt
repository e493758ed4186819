//! Why some blocks are no file, or no group.
ghost use Rattle.std.specs.Prelude.{◌≡◌};
ghost use Rattle.xr_open.specs.declared.fault.OpenFault.TheVariants.{Header, NoMemory, Tree};

use std::alloc::AllocError;
use thiserror::Error;
use xr_block::fault::TreeFault;
use xr_headers::HeaderFault;

/// Why some blocks weren't opened.
#[derive(Clone, Copy, Debug, PartialEq, Eq, Error)]
pub enum OpenFault {
    /// The first block isn't a core, or a group's header, or it names a block of no tree as used.
    #[error("{0}")]
    Header(HeaderFault),
    /// The blocks below a root are no tree, or one of them is also of a tree before it.
    #[error("{0}")]
    Tree(TreeFault),
    /// Want of memory.
    #[error("out of memory")]
    NoMemory,
}

impl From<HeaderFault> for OpenFault {
    ghost from_gives = { λ fault made. made ≡ Header fault };

    fn from(fault: HeaderFault) -> OpenFault {
        OpenFault::Header(fault)
    }
}

impl From<TreeFault> for OpenFault {
    ghost from_gives = { λ fault made. made ≡ Tree fault };

    fn from(fault: TreeFault) -> OpenFault {
        OpenFault::Tree(fault)
    }
}

impl From<AllocError> for OpenFault {
    ghost from_gives = { λ _ made. made ≡ NoMemory };

    fn from(_error: AllocError) -> OpenFault {
        OpenFault::NoMemory
    }
}
