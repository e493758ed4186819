//! Worked chains on files 0 and 1 and group 0 of a fresh image, as the formats have them: how each begins, what it asks for, and what
//! each roll changes and leaves.
use Begins::{Exchanges, Punches, Releases, Shares, Stages, Writes};
use Changes::{Counts, Frees, NoBlock, NoBlockOfBoth, NoBlockOfOne, One, Owners, Two};
use xr_items::{CountKind, MapKind, OwnKind};

/// What a work does.
#[derive(Clone, Copy)]
pub(crate) enum Does {
    Maps(MapKind),
    Owns(OwnKind),
    Counts(CountKind),
    Frees,
    Swaps,
}

const UNMAP: Does = Does::Maps(MapKind::Unmap);

const MAP: Does = Does::Maps(MapKind::Map);

const DISOWN: Does = Does::Owns(OwnKind::UnmapShared);

const OWN: Does = Does::Owns(OwnKind::MapShared);

const UNPAIR: Does = Does::Owns(OwnKind::Free);

const PAIR: Does = Does::Owns(OwnKind::Alloc);

const RAISE: Does = Does::Counts(CountKind::Increase);

const LOWER: Does = Does::Counts(CountKind::Decrease);

const STAGE: Does = Does::Counts(CountKind::AllocCow);

const UNSTAGE: Does = Does::Counts(CountKind::FreeCow);

const FREE: Does = Does::Frees;

const SWAP: Does = Does::Swaps;

/// A work with its file, offset and run. An exchange has its other file, the offset in file 0, that in the other, and its length.
pub(crate) type Named = (Does, u32, u32, u32, u32);

/// What a roll is lent and changes: one of the files, the tree of owners, that of counts, both of free runs, or nothing of what it
/// needs.
#[derive(Clone, Copy)]
pub(crate) enum Changes {
    One,
    Two,
    Owners,
    Counts,
    Frees,
    NoBlock,
    NoBlockOfBoth,
    NoBlockOfOne,
}

/// How a chain begins: with blocks to be staged, of which the first are these; with staged ones that are released; with a step on
/// blocks of a file, on staged ones or on none; or with an exchange of file 0 and another.
#[derive(Clone, Copy)]
pub(crate) enum Begins {
    Stages(u32, u32, u32),
    Releases(u32, u32),
    Shares(u32, u32, u32, u32),
    Writes(u32, u32, u32, u32),
    Punches(u32, u32, u32),
    Exchanges(u32, u32, u32, u32),
}

/// What a roll changes, and the works that it leaves.
pub(crate) type Rolled = (Changes, &'static [Named]);

/// How a chain begins, the works that it asks for, and its rolls up to its end.
pub(crate) type Row = (Begins, &'static [Named], &'static [Rolled]);

/// A run is staged and released. A block is staged, mapped and punched.
pub(crate) const STAGED: [Row; 5] = [
    (
        Stages(2, 512, 2),
        &[(STAGE, 0, 0, 512, 2), (PAIR, 0, 0, 512, 2)],
        &[(Counts, &[]), (Owners, &[])],
    ),
    (
        Releases(512, 2),
        &[
            (UNSTAGE, 0, 0, 512, 2),
            (UNPAIR, 0, 0, 512, 2),
            (FREE, 0, 0, 512, 2),
        ],
        &[(Counts, &[]), (Owners, &[]), (Frees, &[])],
    ),
    (
        Stages(1, 512, 1),
        &[(STAGE, 0, 0, 512, 1), (PAIR, 0, 0, 512, 1)],
        &[(Counts, &[]), (Owners, &[])],
    ),
    (
        Writes(0, 0, 512, 1),
        &[
            (MAP, 0, 0, 512, 1),
            (UNPAIR, 0, 0, 512, 1),
            (OWN, 0, 0, 512, 1),
            (UNSTAGE, 0, 0, 512, 1),
        ],
        &[(One, &[]), (Owners, &[]), (Owners, &[]), (Counts, &[])],
    ),
    (
        Punches(0, 0, 1),
        &[
            (UNMAP, 0, 0, 512, 1),
            (DISOWN, 0, 0, 512, 1),
            (LOWER, 0, 0, 512, 1),
        ],
        &[
            (One, &[]),
            (Owners, &[]),
            (NoBlock, &[(FREE, 0, 0, 512, 1)]),
            (Frees, &[]),
        ],
    ),
];

/// A block of two gets a second owner.
pub(crate) const SHARED: [Row; 3] = [
    (
        Stages(2, 512, 2),
        &[(STAGE, 0, 0, 512, 2), (PAIR, 0, 0, 512, 2)],
        &[(Counts, &[]), (Owners, &[])],
    ),
    (
        Writes(0, 0, 512, 2),
        &[
            (MAP, 0, 0, 512, 2),
            (UNPAIR, 0, 0, 512, 2),
            (OWN, 0, 0, 512, 2),
            (UNSTAGE, 0, 0, 512, 2),
        ],
        &[(One, &[]), (Owners, &[]), (Owners, &[]), (Counts, &[])],
    ),
    (
        Shares(1, 4, 512, 1),
        &[
            (MAP, 1, 4, 512, 1),
            (OWN, 1, 4, 512, 1),
            (RAISE, 0, 0, 512, 1),
        ],
        &[(Two, &[]), (Owners, &[]), (Counts, &[])],
    ),
];

/// Both are punched, of which the first keeps an owner. That one is overwritten by staged blocks, and these by a block of a file.
pub(crate) const OVERWRITTEN: [Row; 5] = [
    (
        Punches(0, 0, 2),
        &[
            (UNMAP, 0, 0, 512, 2),
            (DISOWN, 0, 0, 512, 2),
            (LOWER, 0, 0, 512, 2),
        ],
        &[
            (One, &[]),
            (Owners, &[]),
            (Counts, &[(LOWER, 0, 0, 513, 1)]),
            (NoBlock, &[(FREE, 0, 0, 513, 1)]),
            (Frees, &[]),
        ],
    ),
    (
        Stages(3, 513, 3),
        &[(STAGE, 0, 0, 513, 3), (PAIR, 0, 0, 513, 3)],
        &[(Counts, &[]), (Owners, &[])],
    ),
    (
        Writes(1, 4, 513, 1),
        &[
            (UNMAP, 1, 4, 512, 1),
            (MAP, 1, 4, 513, 1),
            (UNPAIR, 0, 0, 513, 1),
            (DISOWN, 1, 4, 512, 1),
            (OWN, 1, 4, 513, 1),
            (UNSTAGE, 0, 0, 513, 1),
            (LOWER, 0, 0, 512, 1),
        ],
        &[
            (Two, &[]),
            (Two, &[]),
            (Owners, &[]),
            (Owners, &[]),
            (Owners, &[]),
            (Counts, &[]),
            (NoBlock, &[(FREE, 0, 0, 512, 1)]),
            (Frees, &[]),
        ],
    ),
    (
        Writes(0, 0, 514, 2),
        &[
            (MAP, 0, 0, 514, 2),
            (UNPAIR, 0, 0, 514, 2),
            (OWN, 0, 0, 514, 2),
            (UNSTAGE, 0, 0, 514, 2),
        ],
        &[(One, &[]), (Owners, &[]), (Owners, &[]), (Counts, &[])],
    ),
    (
        Shares(0, 1, 513, 1),
        &[
            (UNMAP, 0, 1, 515, 1),
            (MAP, 0, 1, 513, 1),
            (DISOWN, 0, 1, 515, 1),
            (OWN, 0, 1, 513, 1),
            (RAISE, 0, 0, 513, 1),
            (LOWER, 0, 0, 515, 1),
        ],
        &[
            (One, &[]),
            (One, &[]),
            (Owners, &[]),
            (Owners, &[]),
            (Counts, &[]),
            (NoBlock, &[(FREE, 0, 0, 515, 1)]),
            (Frees, &[]),
        ],
    ),
];

/// File 0 has 512, 513 and 514 from offset 0 on, and file 1 has 515 and 516 from offset 1 on. The first piece is a block and a hole,
/// the second two blocks and two, and behind them are holes in both.
pub(crate) const EXCHANGED: [Row; 5] = [
    (
        Stages(3, 512, 3),
        &[(STAGE, 0, 0, 512, 3), (PAIR, 0, 0, 512, 3)],
        &[(Counts, &[]), (Owners, &[])],
    ),
    (
        Writes(0, 0, 512, 3),
        &[
            (MAP, 0, 0, 512, 3),
            (UNPAIR, 0, 0, 512, 3),
            (OWN, 0, 0, 512, 3),
            (UNSTAGE, 0, 0, 512, 3),
        ],
        &[(One, &[]), (Owners, &[]), (Owners, &[]), (Counts, &[])],
    ),
    (
        Stages(2, 515, 2),
        &[(STAGE, 0, 0, 515, 2), (PAIR, 0, 0, 515, 2)],
        &[(Counts, &[]), (Owners, &[])],
    ),
    (
        Writes(1, 1, 515, 2),
        &[
            (MAP, 1, 1, 515, 2),
            (UNPAIR, 0, 0, 515, 2),
            (OWN, 1, 1, 515, 2),
            (UNSTAGE, 0, 0, 515, 2),
        ],
        &[(Two, &[]), (Owners, &[]), (Owners, &[]), (Counts, &[])],
    ),
    (
        Exchanges(1, 0, 0, 4),
        &[(SWAP, 1, 0, 0, 4)],
        &[
            (
                NoBlockOfBoth,
                &[
                    (UNMAP, 0, 0, 512, 1),
                    (MAP, 1, 0, 512, 1),
                    (DISOWN, 0, 0, 512, 1),
                    (OWN, 1, 0, 512, 1),
                    (SWAP, 1, 1, 1, 3),
                ],
            ),
            (One, &[]),
            (Two, &[]),
            (Owners, &[]),
            (Owners, &[]),
            (
                NoBlockOfBoth,
                &[
                    (UNMAP, 0, 1, 513, 2),
                    (UNMAP, 1, 1, 515, 2),
                    (MAP, 0, 1, 515, 2),
                    (MAP, 1, 1, 513, 2),
                    (DISOWN, 0, 1, 513, 2),
                    (DISOWN, 1, 1, 515, 2),
                    (OWN, 0, 1, 515, 2),
                    (OWN, 1, 1, 513, 2),
                    (SWAP, 1, 3, 3, 1),
                ],
            ),
            (One, &[]),
            (Two, &[]),
            (One, &[]),
            (Two, &[]),
            (Owners, &[]),
            (Owners, &[]),
            (Owners, &[]),
            (Owners, &[]),
            (NoBlockOfBoth, &[]),
        ],
    ),
];

/// File 0 has a hole and then 515 and 516, and file 1 has 512, 513 and 514. File 0 gets 512 too, so that the fronts are alike. Then
/// the front is a hole in both, and at last a file exchanges ranges of its own.
pub(crate) const PASSED_OVER: [Row; 5] = [
    (
        Shares(0, 0, 512, 1),
        &[
            (MAP, 0, 0, 512, 1),
            (OWN, 0, 0, 512, 1),
            (RAISE, 0, 0, 512, 1),
        ],
        &[(One, &[]), (Owners, &[]), (Counts, &[])],
    ),
    (
        Exchanges(1, 0, 0, 3),
        &[(SWAP, 1, 0, 0, 3)],
        &[
            (
                NoBlockOfBoth,
                &[
                    (UNMAP, 0, 1, 515, 2),
                    (UNMAP, 1, 1, 513, 2),
                    (MAP, 0, 1, 513, 2),
                    (MAP, 1, 1, 515, 2),
                    (DISOWN, 0, 1, 515, 2),
                    (DISOWN, 1, 1, 513, 2),
                    (OWN, 0, 1, 513, 2),
                    (OWN, 1, 1, 515, 2),
                ],
            ),
            (One, &[]),
            (Two, &[]),
            (One, &[]),
            (Two, &[]),
            (Owners, &[]),
            (Owners, &[]),
            (Owners, &[]),
            (Owners, &[]),
        ],
    ),
    (
        Exchanges(1, 1, 6, 3),
        &[(SWAP, 1, 1, 6, 3)],
        &[
            (
                NoBlockOfBoth,
                &[
                    (UNMAP, 0, 1, 513, 2),
                    (MAP, 1, 6, 513, 2),
                    (DISOWN, 0, 1, 513, 2),
                    (OWN, 1, 6, 513, 2),
                    (SWAP, 1, 3, 8, 1),
                ],
            ),
            (One, &[]),
            (Two, &[]),
            (Owners, &[]),
            (Owners, &[]),
            (NoBlockOfBoth, &[]),
        ],
    ),
    (
        Exchanges(1, 1, 4, 4),
        &[(SWAP, 1, 1, 4, 4)],
        &[
            (
                NoBlockOfBoth,
                &[
                    (UNMAP, 1, 6, 513, 2),
                    (MAP, 0, 3, 513, 2),
                    (DISOWN, 1, 6, 513, 2),
                    (OWN, 0, 3, 513, 2),
                ],
            ),
            (Two, &[]),
            (One, &[]),
            (Owners, &[]),
            (Owners, &[]),
        ],
    ),
    (
        Exchanges(0, 0, 3, 1),
        &[(SWAP, 0, 0, 3, 1)],
        &[
            (
                NoBlockOfOne,
                &[
                    (UNMAP, 0, 0, 512, 1),
                    (UNMAP, 0, 3, 513, 1),
                    (MAP, 0, 0, 513, 1),
                    (MAP, 0, 3, 512, 1),
                    (DISOWN, 0, 0, 512, 1),
                    (DISOWN, 0, 3, 513, 1),
                    (OWN, 0, 0, 513, 1),
                    (OWN, 0, 3, 512, 1),
                ],
            ),
            (One, &[]),
            (One, &[]),
            (One, &[]),
            (One, &[]),
            (Owners, &[]),
            (Owners, &[]),
            (Owners, &[]),
            (Owners, &[]),
        ],
    ),
];
