// Texts of entries for the events open and steam.
use crate::trying::{Kind, LongTrial, Trials};

const HEADS: Trials = Trials {
    kind: Kind::Entries(2),
    name: "entries head",
    before: "",
    after: "\n0 0 none none\n",
    tried: &[
        "at state open steam",
        "at state steam open",
        "at state open",
        "at state",
        "at state open steam shut",
        "at state open open",
        "state at open steam",
        "at states open steam",
        "at state opensteam",
        "at state opens team",
        "open steam",
        "tick",
        "0 0 none none",
        " at state open steam",
        "at state open steam ",
        "at state  open steam",
        "at  state steam open",
        "",
        "\nat state open steam",
    ],
};

const ROWS: Trials = Trials {
    kind: Kind::Entries(2),
    name: "entries row",
    before: "at state open steam\n",
    after: "\n",
    tried: &[
        "0 0 none none",
        "1 2 0 none",
        "0 0 none 3",
        "9999999999 9999999999 9999999999 9999999999",
        "10000000000 0 0 0",
        "0 10000000000 0 0",
        "0 0 10000000000 0",
        "0 0 0 10000000000",
        "none 0 0 0",
        "0 none 0 0",
        "00 0 0 0",
        "0 007 0 0",
        "0 0 00 0",
        "0 0 any 0",
        "0 0 1.. 0",
        "0 0 0 2..3",
        "0 0 0 steam",
        "x 0 0 0",
        "0 0 0 nonee",
        "0",
        "0 0 0",
        "0 0 0 0 0",
        "at state open steam",
        " 0 0 0 0",
        "0 0 0 0 ",
        "0 0  0 0",
        "x  0",
        "",
        "\n0 0 0 0",
        "0 0 0 0\n",
        "0 0 0 0\n\n0 0 0 0",
        "0 0 0 0\n0 0 0 0",
        "0 0 0 0\nx 0 0 0",
        "0 0 0 0\n0 0 0 0\n0 0 0 0",
        "0 0 0 0\n0 0 0 0\nx",
        "0 0 0 0\n0 0 0 0\n 0 0 0 0",
        "0 0 0 0\n0 0 0 0\n",
        "x 0 0 0\n 0 0 0 0",
        "x 0 0 0\n0 0 0 0\n0 0 0 0",
    ],
};

const WHOLES: Trials = Trials {
    kind: Kind::Entries(2),
    name: "entries",
    before: "",
    after: "",
    tried: &[
        "",
        "\n",
        "at state open steam",
        "at state",
        "at state open steam\n",
        "at state open steam\n\n",
        "at state open steam\n0 0 0 0",
        "at state open steam\n0 0 0 0\n0 0 0 0\n0 0 0 0",
        "at state\nx\n",
        "At state open steam\n",
        "at state open steam\n0 0 0 0\n0 0 0 0,\n",
        " at state\nx\n0\t0 0 0\n",
        "at state open steam\n0 0 0 0\n\nat state open steam\n",
    ],
};

pub(crate) const TRIALS: &[Trials] = &[HEADS, ROWS, WHOLES];

const HEAD: &str = "at state open steam\n";

const ROW: &str = "0 0 0 none\n";

// A row of 44 bytes: 1,489 of them and the head are 65,536.
const WIDE_ROW: &str = "9999999999 9999999999 9999999999 9999999999\n";

const PLAIN: LongTrial = LongTrial {
    what: "plain",
    kind: Kind::Entries(0),
    before: &[],
    repeated: "",
    times: 0,
    after: "",
};

pub(crate) const LONG: &[LongTrial] = &[
    LongTrial {
        what: "0 entries into 0",
        before: &[HEAD],
        ..PLAIN
    },
    LongTrial {
        what: "1 entry into 0",
        before: &[HEAD],
        repeated: ROW,
        times: 1,
        ..PLAIN
    },
    LongTrial {
        what: "a bad word into 0",
        before: &[HEAD],
        after: "x\n",
        ..PLAIN
    },
    LongTrial {
        what: "wrong spacing into 0",
        before: &[HEAD],
        after: " x\n",
        ..PLAIN
    },
    LongTrial {
        what: "1 entry into 1",
        kind: Kind::Entries(1),
        before: &[HEAD],
        repeated: ROW,
        times: 1,
        ..PLAIN
    },
    LongTrial {
        what: "2 entries into 1",
        kind: Kind::Entries(1),
        before: &[HEAD],
        repeated: ROW,
        times: 2,
        ..PLAIN
    },
    LongTrial {
        what: "0 entries into 2048",
        kind: Kind::Entries(2048),
        before: &[HEAD],
        ..PLAIN
    },
    LongTrial {
        what: "2048 entries into 2048",
        kind: Kind::Entries(2048),
        before: &[HEAD],
        repeated: ROW,
        times: 2048,
        ..PLAIN
    },
    LongTrial {
        what: "2049 entries into 2048",
        kind: Kind::Entries(2048),
        before: &[HEAD],
        repeated: ROW,
        times: 2049,
        ..PLAIN
    },
    LongTrial {
        what: "2048 entries and a bad word into 2048",
        kind: Kind::Entries(2048),
        before: &[HEAD],
        repeated: ROW,
        times: 2048,
        after: "x\n",
        ..PLAIN
    },
    LongTrial {
        what: "2048 entries and wrong spacing into 2048",
        kind: Kind::Entries(2048),
        before: &[HEAD],
        repeated: ROW,
        times: 2048,
        after: "0 0  0 none\n",
        ..PLAIN
    },
    LongTrial {
        what: "2048 entries and an empty line into 2048",
        kind: Kind::Entries(2048),
        before: &[HEAD],
        repeated: ROW,
        times: 2048,
        after: "\n",
        ..PLAIN
    },
    LongTrial {
        what: "2049 entries into 2048, the last not ended",
        kind: Kind::Entries(2048),
        before: &[HEAD],
        repeated: ROW,
        times: 2048,
        after: "0 0 0 none",
        ..PLAIN
    },
    LongTrial {
        what: "1489 wide entries into 1490",
        kind: Kind::Entries(1490),
        before: &[HEAD],
        repeated: WIDE_ROW,
        times: 1489,
        ..PLAIN
    },
    LongTrial {
        what: "1489 wide entries into 1489",
        kind: Kind::Entries(1489),
        before: &[HEAD],
        repeated: WIDE_ROW,
        times: 1489,
        ..PLAIN
    },
    LongTrial {
        what: "1489 wide entries into 1488",
        kind: Kind::Entries(1488),
        before: &[HEAD],
        repeated: WIDE_ROW,
        times: 1489,
        ..PLAIN
    },
    LongTrial {
        what: "1489 wide entries and an empty line into 1489",
        kind: Kind::Entries(1489),
        before: &[HEAD],
        repeated: WIDE_ROW,
        times: 1489,
        after: "\n",
        ..PLAIN
    },
    LongTrial {
        what: "1489 wide entries and a wrong byte into 1489",
        kind: Kind::Entries(1489),
        before: &[HEAD],
        repeated: WIDE_ROW,
        times: 1489,
        after: "A",
        ..PLAIN
    },
    LongTrial {
        what: "1488 wide entries and a wrong byte into 1489",
        kind: Kind::Entries(1489),
        before: &[HEAD],
        repeated: WIDE_ROW,
        times: 1488,
        after: "A",
        ..PLAIN
    },
    LongTrial {
        what: "entries of 65536 bytes, a wrong head",
        kind: Kind::Entries(2),
        repeated: "a",
        times: 65_535,
        after: "\n",
        ..PLAIN
    },
    LongTrial {
        what: "entries of 65536 bytes, a wrong byte",
        kind: Kind::Entries(2),
        repeated: "A",
        times: 65_535,
        after: "\n",
        ..PLAIN
    },
    LongTrial {
        what: "entries of 65536 bytes, empty lines",
        kind: Kind::Entries(2),
        repeated: "\n",
        times: 65_535,
        after: "\n",
        ..PLAIN
    },
    LongTrial {
        what: "entries of 65537 bytes, a wrong head",
        kind: Kind::Entries(2),
        repeated: "a",
        times: 65_536,
        after: "\n",
        ..PLAIN
    },
    LongTrial {
        what: "entries of 65537 bytes, a wrong byte",
        kind: Kind::Entries(2),
        repeated: "A",
        times: 65_536,
        after: "\n",
        ..PLAIN
    },
    LongTrial {
        what: "entries of 65537 bytes, empty lines",
        kind: Kind::Entries(2),
        repeated: "\n",
        times: 65_536,
        after: "\n",
        ..PLAIN
    },
];
