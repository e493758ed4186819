//! Rows of `expect`: what a script prints, over a source and a sink in memory.

use crate::tests::{Input, gives, no_disk, script};
use std::test::Fail;

pub(crate) const ALL_FREE: &str = "free 512 1536\nfree 2560 1536\nfree 4608 1536\nfree 6656 1536\n";

/// A name, a script and what is printed for it.
const ROWS: [(&str, &str, &str); 14] = [
    ("empty input", "", ALL_FREE),
    (
        "comments and empty lines alone",
        "# a\n\n#remap 0 0 1 512",
        ALL_FREE,
    ),
    (
        "two files share a run",
        "remap 0 0 4 512\nremap 1 0 4 512\n",
        "file 0 0 4 512\nfile 1 0 4 512\nowner 512 4 0 0\nowner 512 4 1 0\nshared 512 4 2\nfree 516 1532\nfree 2560 1536\nfree 4608 1536\nfree 6656 1536\n",
    ),
    (
        "one file maps a block twice",
        "remap 0 0 1 512\nremap 0 7 1 512\n",
        "file 0 0 1 512\nfile 0 7 1 512\nowner 512 1 0 0\nowner 512 1 0 7\nshared 512 1 2\nfree 513 1535\nfree 2560 1536\nfree 4608 1536\nfree 6656 1536\n",
    ),
    (
        "a record merges on both sides",
        "remap 3 10 2 600\nremap 3 13 2 603\nremap 3 12 1 602\n",
        "file 3 10 5 600\nowner 600 5 3 10\nfree 512 88\nfree 605 1443\nfree 2560 1536\nfree 4608 1536\nfree 6656 1536\n",
    ),
    (
        "blocks touch and offsets don't run on",
        "remap 0 0 2 512\nremap 0 5 2 514\n",
        "file 0 0 2 512\nfile 0 5 2 514\nowner 512 2 0 0\nowner 514 2 0 5\nfree 516 1532\nfree 2560 1536\nfree 4608 1536\nfree 6656 1536\n",
    ),
    (
        "another group's block, and another file's",
        "remap 0 0 1 2047\nremap 0 1 1 2560\nremap 1 0 1 2561\n",
        "file 0 0 1 2047\nfile 0 1 1 2560\nfile 1 0 1 2561\nowner 2047 1 0 0\nowner 2560 1 0 1\nowner 2561 1 1 0\nfree 512 1535\nfree 2562 1534\nfree 4608 1536\nfree 6656 1536\n",
    ),
    (
        "three owners beside two",
        "remap 0 0 4 512\nremap 1 0 4 512\nremap 2 0 2 512\n",
        "file 0 0 4 512\nfile 1 0 4 512\nfile 2 0 2 512\nowner 512 4 0 0\nowner 512 4 1 0\nowner 512 2 2 0\nshared 512 2 3\nshared 514 2 2\nfree 516 1532\nfree 2560 1536\nfree 4608 1536\nfree 6656 1536\n",
    ),
    (
        "a remap over a part of an extent",
        "remap 0 0 4 512\nremap 0 1 2 2560\n",
        "file 0 0 1 512\nfile 0 1 2 2560\nfile 0 3 1 515\nowner 512 1 0 0\nowner 515 1 0 3\nowner 2560 2 0 1\nfree 513 2\nfree 516 1532\nfree 2562 1534\nfree 4608 1536\nfree 6656 1536\n",
    ),
    (
        "a file onto its own blocks, and the last offset and file",
        "remap 31 508 4 8188\nremap 31 508 4 8188\nremap 31 504 4 8184\n",
        "file 31 504 8 8184\nowner 8184 8 31 504\nfree 512 1536\nfree 2560 1536\nfree 4608 1536\nfree 6656 1528\n",
    ),
    (
        "a punch in the middle of an extent",
        "remap 0 0 4 512\npunch 0 1 2\n",
        "file 0 0 1 512\nfile 0 3 1 515\nowner 512 1 0 0\nowner 515 1 0 3\nfree 513 2\nfree 516 1532\nfree 2560 1536\nfree 4608 1536\nfree 6656 1536\n",
    ),
    (
        "two files exchange their blocks",
        "remap 0 0 2 512\nremap 1 8 2 2560\nexchange 0 0 1 8 2\n",
        "file 0 0 2 2560\nfile 1 8 2 512\nowner 512 2 1 8\nowner 2560 2 0 0\nfree 514 1534\nfree 2562 1534\nfree 4608 1536\nfree 6656 1536\n",
    ),
    (
        "blocks and holes change places, one each way",
        "remap 0 0 1 512\nremap 1 5 1 600\nexchange 0 0 1 4 2\n",
        "file 0 1 1 600\nfile 1 4 1 512\nowner 512 1 1 4\nowner 600 1 0 1\nfree 513 87\nfree 601 1447\nfree 2560 1536\nfree 4608 1536\nfree 6656 1536\n",
    ),
    (
        "ranges of one file that touch, the later one first",
        "remap 31 508 2 512\nexchange 31 510 31 508 2\n",
        "file 31 510 2 512\nowner 512 2 31 510\nfree 514 1534\nfree 2560 1536\nfree 4608 1536\nfree 6656 1536\n",
    ),
];

#[test]
fn prints_the_records(rt: HostRuntime) -> Result<(), Fail> {
    for (name, text, wanted) in ROWS {
        gives(
            &rt,
            &[name],
            no_disk(&rt)?,
            &["expect"],
            script(text),
            (0, wanted),
        )?;
    }
    Ok(())
}

/// Scripts with a bad line, and its number.
const BAD_SCRIPTS: [(&str, &str); 21] = [
    ("remap 0 0 1", "line 1\n"),
    ("remap 0 0 1 512 1\n", "line 1\n"),
    ("\n# two\nremap 0 0 01 512\n", "line 3\n"),
    ("remap 0 0 1 512\nremap +0 0 1 512\n", "line 2\n"),
    ("remap 0  0 1 512\n", "line 1\n"),
    ("remap 0 0 1 512 \n", "line 1\n"),
    (" remap 0 0 1 512\n", "line 1\n"),
    ("remap 0 0 1 512\r\n", "line 1\n"),
    ("remap 0 0 1 4294967808\n", "line 1\n"),
    ("move 0 0 1\n", "line 1\n"),
    ("punch 0 0 1 512\n", "line 1\n"),
    ("punch 0 511 2\n", "line 1\n"),
    ("exchange 0 0 1 0\n", "line 1\n"),
    ("exchange 0 0 32 0 1\n", "line 1\n"),
    ("exchange 0 0 1 511 2\n", "line 1\n"),
    ("exchange 0 0 0 1 2\n", "line 1\n"),
    ("remap 32 0 1 512\n", "line 1\n"),
    ("remap 0 0 0 512\n", "line 1\n"),
    ("remap 0 511 2 512\n", "line 1\n"),
    ("remap 0 0 1 511\n", "line 1\n"),
    ("remap 0 0 2 2047\n", "line 1\n"),
];

#[test]
fn names_the_first_bad_line(rt: HostRuntime) -> Result<(), Fail> {
    for (text, wanted) in BAD_SCRIPTS {
        gives(
            &rt,
            &[text],
            no_disk(&rt)?,
            &["expect"],
            script(text),
            (3, wanted),
        )?;
    }
    Ok(())
}

/// Words, the calls of the source and of the sink that fail, the status and what is written.
const FAULTS: [(&[&str], &[u64], &[u64], u8, &str); 6] = [
    (&["expect"], &[1], &[], 4, "source\n"),
    (&["expect"], &[2], &[], 4, "source\n"),
    (&["expect"], &[], &[1], 5, ""),
    (&["expect"], &[1], &[1], 5, ""),
    (&[], &[1], &[], 2, "words\n"),
    (&["mkfs", "image"], &[], &[1], 5, ""),
];

#[test]
fn ends_with_the_faults_of_the_outside(rt: HostRuntime) -> Result<(), Fail> {
    for (words, source_fails, sink_fails, status, wanted) in FAULTS {
        let input = Input {
            script: "remap 0 0 1 512\n",
            source_fails,
            sink_fails,
        };
        gives(&rt, words, no_disk(&rt)?, words, input, (status, wanted))?;
    }
    Ok(())
}
