//! Replies, each with its line.
use hfs_language::{Facts, Gauge, Refusal, TreeGauge};

pub(crate) const FOLDER: Facts = Facts {
    folder: true,
    id: 2,
    size: 0,
    links: 0,
    mode: 0o755,
    created: 0,
    changed: 0,
    attribute: 0,
};

pub(crate) const FILE: Facts = Facts {
    folder: false,
    id: 18,
    size: 1,
    links: 1,
    mode: 0o100600,
    created: 100,
    changed: 200,
    attribute: 200,
};

pub(crate) const GAUGE: Gauge = Gauge {
    block: 4096,
    total: 2048,
    free: 1674,
    longest: 1674,
    capacity: 1982,
    trees: [
        TreeGauge {
            depth: 1,
            nodes: 16,
            unused: 14,
        },
        TreeGauge {
            depth: 1,
            nodes: 64,
            unused: 62,
        },
        TreeGauge {
            depth: 0,
            nodes: 16,
            unused: 15,
        },
    ],
};

pub(crate) const FOLDER_LINE: &str = "ok folder 2 0 0755 0 0 0\n";

pub(crate) const FILE_LINE: &str = "ok file 18 1 1 0600 100 200 200\n";

pub(crate) const GAUGE_LINE: &str = "ok 4096 2048 1674 1674 1982 1 16 14 1 64 62 0 16 15\n";

pub(crate) const CONTENTS: &[(&[u8], &str)] = &[
    (b"", "ok =\n"),
    (b"\0\0wxyz", "ok =%00%00wxyz\n"),
    (b"a b%\n", "ok =a%20b%25%0A\n"),
    (b"\x7F\xFF~!", "ok =%7F%FF~!\n"),
];

pub(crate) const REFUSALS: &[(Refusal, &str)] = &[
    (Refusal::TooLong, "no TooLong\n"),
    (Refusal::BadCommand, "no BadCommand\n"),
    (Refusal::BadName, "no BadName\n"),
    (Refusal::NameTooLong, "no NameTooLong\n"),
    (Refusal::Private, "no Private\n"),
    (Refusal::Root, "no Root\n"),
    (Refusal::NotFound, "no NotFound\n"),
    (Refusal::NotFolder, "no NotFolder\n"),
    (Refusal::IsFolder, "no IsFolder\n"),
    (Refusal::Exists, "no Exists\n"),
    (Refusal::NotEmpty, "no NotEmpty\n"),
    (Refusal::Inside, "no Inside\n"),
    (Refusal::TooManyLinks, "no TooManyLinks\n"),
    (Refusal::TooLarge, "no TooLarge\n"),
    (Refusal::AttributeTooLarge, "no AttributeTooLarge\n"),
    (Refusal::NoAttribute, "no NoAttribute\n"),
    (Refusal::BadTarget, "no BadTarget\n"),
    (Refusal::NoTree, "no NoTree\n"),
    (Refusal::NoIds(4_294_967_295), "no NoIds 4294967295\n"),
    (Refusal::TooDeep(8), "no TooDeep 8\n"),
    (Refusal::OverflowFull(8), "no OverflowFull 8\n"),
    (Refusal::NoSpace(3, 4), "no NoSpace 3 4\n"),
    (
        Refusal::NoRun(0, 18_446_744_073_709_551_615),
        "no NoRun 0 18446744073709551615\n",
    ),
    (Refusal::TooBig(545, 494), "no TooBig 545 494\n"),
    (Refusal::OutOfMemory, "no OutOfMemory\n"),
    (Refusal::Unsteady, "no Unsteady\n"),
];
