//! A chain of new works, which a transaction asks for.
ghost use Rattle.std.specs.Prelude.{◌≡◌, ◌≤◌, [], length};
ghost use Rattle.std.specs.List.{All};
ghost use Rattle.xr_chain.specs.ChainView.{begun_chain};
ghost use Rattle.xr_items.specs.Valid.{IsWork};

use crate::chain::{CHAIN_WORKS, Chain};
use xr_items::{Trans, Work};

/// Asks for some works, in their order, in a transaction that asks for none.
pub(crate) fn ask_for(works: &[Work], trans: &mut Trans)
    requires fit { length works.now ≤ CHAIN_WORKS }
    requires valid { All IsWork works.now }
    requires none { trans.old.works ≡ [] }
    ensures { trans.new ≡ record trans.old { works = works.now } }
{
    for work in works {
        trans.add_work(*work);
    }
}

/// Begins a chain of some works, for which a transaction asks that asked for none.
pub(crate) fn begin(works: &[Work], trans: &mut Trans) -> Chain
    requires fit { length works.now ≤ CHAIN_WORKS }
    requires valid { All IsWork works.now }
    requires none { trans.old.works ≡ [] }
    ensures chain { result ≡ begun_chain works.now }
    ensures asked { trans.new ≡ record trans.old { works = works.now } }
{
    ask_for(works, trans);
    Chain::joined(&[], works, &[])
}
