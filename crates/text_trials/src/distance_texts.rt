// Texts of distances between the events open and steam.
use crate::trying::{Kind, LongTrial, Trials};

const TICK_HEADS: Trials = Trials {
    kind: Kind::Distances,
    name: "distances tick head",
    before: "",
    after: "\n100\n\non since least most\n",
    tried: &["tick", "tick tick", "on since least most", " tick", ""],
};

const TICK_ROWS: Trials = Trials {
    kind: Kind::Distances,
    name: "distances tick row",
    before: "tick\n",
    after: "\n\non since least most\n",
    tried: &[
        "0",
        "1",
        "60000",
        "60001",
        "65537",
        "10000000000",
        "007",
        "x",
        "100 100",
        "100 ",
        "",
        "100\n100",
        "100\nx",
        "100\n",
    ],
};

const LINE_HEADS: Trials = Trials {
    kind: Kind::Distances,
    name: "distances head",
    before: "tick\n100\n\n",
    after: "\nsteam open 2 3\n",
    tried: &[
        "on since least most",
        "on since most least",
        "on since least",
        "on since least most most",
        "since on least most",
        "steam open 2 3",
        "place start final",
        "on since  least most",
        "",
        "\non since least most",
    ],
};

const LINE_ROWS: Trials = Trials {
    kind: Kind::Distances,
    name: "distances row",
    before: "tick\n100\n\non since least most\n",
    after: "\n",
    tried: &[
        "steam open 2 3",
        "open open 0 0",
        "open steam 3 3",
        "steam open 0 250",
        "steam open 250 250",
        "steam open 0 251",
        "steam open 251 251",
        "steam open 251 0",
        "steam open 3 2",
        "steam open 250 249",
        "steam open 256 257",
        "steam open 0 256",
        "steam open 4294967296 1",
        "steam open 9999999999 0",
        "steam open 0 9999999999",
        "steam open 10000000000 0",
        "steam open 0 10000000000",
        "steam open 00 0",
        "steam open 2 03",
        "shut open 2 3",
        "steam shut 2 3",
        "2 3 steam open",
        "any open 2 3",
        "steam open x 3",
        "steam open 2 x",
        "steam open none 3",
        "steam open 2 any",
        "steam open 2.. 3",
        "steam",
        "steam open 2",
        "steam open 2 3 4",
        "on since least most",
        "shut open 251 0",
        "steam open 251 x",
        "steam open x 251",
        "steam open 3 x",
        "steam shut 3 2",
        "shut open 2",
        " steam open 2 3",
        "steam open 2 3 ",
        "steam  open 2 3",
        "shut  open 3 2",
        "",
        "steam open 2 3\n",
        "steam open 2 3\n\nopen open 2 3",
        "steam open 2 3\nsteam open 2 3",
        "steam open 3 2\nshut open 2 3",
        "shut open 2 3\nsteam open 3 2",
    ],
};

const WHOLES: Trials = Trials {
    kind: Kind::Distances,
    name: "distances",
    before: "",
    after: "",
    tried: &[
        "",
        "\n",
        "tick",
        "tick\n",
        "tick\n100",
        "tick\n100\n",
        "tick\n0\n",
        "tick\n\n",
        "tick\n0\n\n",
        "tick\n100\n\n",
        "tick\n100\n100\n",
        "tick\n100\n\n\n",
        "tick\n\non since least most\n",
        "tick\n100\n\non since least most",
        "tick\n100\n\non since least most\n",
        "tick\n100\n\non since least most\nsteam open 2 3",
        "tick\n100\n\non since least most\n\n",
        "tick\n100\non since least most\n",
        "tick\n100\non since least most\nsteam open 2 3\n",
        "on since least most\nsteam open 2 3\n",
        "tick\n100\n\non since least most\nsteam open 2 3\n\ntick\n100\n",
        "tick\n0\n\non since\n",
        "tick\n100\n\non since\nshut open 3 2\n",
        "tick\n100\n\nOn since least most\n",
        " tick\n0\n\non since least most\nsteam open 2\t3\n",
    ],
};

pub(crate) const TRIALS: &[Trials] = &[TICK_HEADS, TICK_ROWS, LINE_HEADS, LINE_ROWS, WHOLES];

const START: &str = "tick\n100\n\non since least most\n";

const ROW: &str = "steam open 2 3\n";

const PLAIN: LongTrial = LongTrial {
    what: "plain",
    kind: Kind::Distances,
    before: &[],
    repeated: "",
    times: 0,
    after: "",
};

pub(crate) const LONG: &[LongTrial] = &[
    LongTrial {
        what: "0 distances",
        before: &[START],
        ..PLAIN
    },
    LongTrial {
        what: "1 distance",
        before: &[START],
        repeated: ROW,
        times: 1,
        ..PLAIN
    },
    LongTrial {
        what: "16 distances",
        before: &[START],
        repeated: ROW,
        times: 16,
        ..PLAIN
    },
    LongTrial {
        what: "17 distances",
        before: &[START],
        repeated: ROW,
        times: 17,
        ..PLAIN
    },
    LongTrial {
        what: "18 distances",
        before: &[START],
        repeated: ROW,
        times: 18,
        ..PLAIN
    },
    LongTrial {
        what: "16 distances and a bad word",
        before: &[START],
        repeated: ROW,
        times: 16,
        after: "x\n",
        ..PLAIN
    },
    LongTrial {
        what: "16 distances and wrong spacing",
        before: &[START],
        repeated: ROW,
        times: 16,
        after: "shut  open 2 3\n",
        ..PLAIN
    },
    LongTrial {
        what: "16 distances and an empty line",
        before: &[START],
        repeated: ROW,
        times: 16,
        after: "\n",
        ..PLAIN
    },
    LongTrial {
        what: "17 distances, the last not ended",
        before: &[START],
        repeated: ROW,
        times: 16,
        after: "steam open 2 3",
        ..PLAIN
    },
    LongTrial {
        what: "distances of 32768 bytes, a wrong head",
        repeated: "a",
        times: 32_767,
        after: "\n",
        ..PLAIN
    },
    LongTrial {
        what: "distances of 32768 bytes, a wrong byte",
        repeated: "A",
        times: 32_767,
        after: "\n",
        ..PLAIN
    },
    LongTrial {
        what: "distances of 32768 bytes, empty lines",
        repeated: "\n",
        times: 32_767,
        after: "\n",
        ..PLAIN
    },
    LongTrial {
        what: "distances of 32769 bytes, a wrong head",
        repeated: "a",
        times: 32_768,
        after: "\n",
        ..PLAIN
    },
    LongTrial {
        what: "distances of 32769 bytes, a wrong byte",
        repeated: "A",
        times: 32_768,
        after: "\n",
        ..PLAIN
    },
    LongTrial {
        what: "distances of 32769 bytes, empty lines",
        repeated: "\n",
        times: 32_768,
        after: "\n",
        ..PLAIN
    },
];
