// Whole table texts.
use crate::trying::{Kind, LongTrial, Trials};

// A text up to some place, and no further.
const CUT_SHORT: Trials = Trials {
    kind: Kind::Table,
    name: "table",
    before: "",
    after: "",
    tried: &[
        "",
        "\n",
        "\n\n",
        " ",
        "tick",
        "ticks",
        "tick\n",
        "ticks\n",
        "tick \n",
        "tick\n100",
        "tick\n0",
        "tick\n100\n",
        "tick\n0\n",
        "tick\n 100\n",
        "tick\n\n",
        "tick\n100\n\n",
        "tick\n0\n\n",
        "tick\n100\n100\n",
        "tick\n100\n100",
        "tick\n100\n\n\n",
        "tick\n\nplace start final\n",
        "tick\n100\n\nplace",
        "tick\n0\n\nplace",
        "tick\n100\n\nplace\n",
        "tick\n100\n\nplace start final",
        "tick\n100\n\nplace start final\n",
        "tick\n100\n\nplace start final\n\n",
        "tick\n100\n\nplace start final\n0 yes no",
        "tick\n100\n\nplace start final\n0 yes no\n",
        "tick\n100\n\nplace start final\n1 x\n",
        "tick\n100\n\nplace start final\n0  yes no\n",
        "tick\n100\n\nplace start final\n0 yes no\n\n",
        "tick\n100\n\nplace start final\n0 yes no\n\n\n",
        "tick\n100\n\nplace start final\n0 yes no\n\nfrom to on a",
        "tick\n100\n\nplace start final\n0 yes no\n\nfrom to on a\n",
        "tick\n100\n\nplace start final\n0 yes no\n\nfrom to on a\n0 0 a any",
        "tick\n100\n\nplace start final\n0 yes no\n\nfrom to on a\n0 0 a any\n",
        "tick\n100\n\nplace start final\n0 yes no\n\nfrom to on a\n0 0 a any\n\n",
        "tick\n100\n\nplace start final\n0 yes no\n\nfrom to on a\n\n",
    ],
};

// Sheets that are left out, doubled, out of order, one too many, or not parted.
const SHEETS: Trials = Trials {
    kind: Kind::Table,
    name: "table",
    before: "",
    after: "",
    tried: &[
        "place start final\n0 yes no\n\nfrom to on a\n",
        "tick\n100\n\nfrom to on a\n0 0 a any\n",
        "tick\n100\n\nfrom to on a\n",
        "tick\n100\n\nfrom to on a\n0 0 a any\n\nplace start final\n0 yes no\n",
        "tick\n100\n\ntick\n100\n\nplace start final\n0 yes no\n\nfrom to on a\n",
        "tick\n100\n\nplace start final\n0 yes no\n\nplace start final\n1 no yes\n\nfrom to on a\n",
        "tick\n100\n\nplace start final\n0 yes no\n\nfrom to on a\n\nfrom to on a\n",
        "tick\n100\nplace start final\n0 yes no\n\nfrom to on a\n",
        "tick\nplace start final\n0 yes no\n\nfrom to on a\n",
        "tick\n100\n\nplace start final\n0 yes no\nfrom to on a\n",
        "tick\n100\n\nplace start final\n0 yes no\nfrom to on a\n0 0 a any\n",
        "tick\n100\n\nplace start final\n0 yes no\nfrom to on\n0 0 a any\n",
        "tick\n100\nplace start final\n0 yes no\nfrom to on a\n",
    ],
};

// Bytes that no text has.
const BYTES: Trials = Trials {
    kind: Kind::Table,
    name: "table",
    before: "",
    after: "",
    tried: &[
        "Tick\n",
        " Tick\n",
        "tick\t\n",
        "tick\r\n100\r\n",
        "tick\n-1\n",
        "tick\n1_00\n",
        "tick\n100\n#",
        "tick\n100\n\nplace start final\n0\tyes no\n",
        "tick\n100\n\nplace start final\n0 yes no\n\nfrom to on a\n0 0 a 2-3\n",
        " tick\n100\n\nplace start final\n0 Yes no\n",
        "ticks\n\n\nA\nB",
    ],
};

// Two lines at fault, of which the first decides.
const TWO_FAULTS: Trials = Trials {
    kind: Kind::Table,
    name: "table",
    before: "",
    after: "",
    tried: &[
        "ticks\n0\n\nplace start final\n",
        "tick\n0\n\nplace start final\n0 yes\n\nfrom to on a\n",
        "tick\nx\n\nplace start final\n1 yes no\n\nfrom to on a\n",
        "tick\n0\n\nplaces\n0 yes no\n\nfrom to on a\n",
        "tick\n0\n\n\nplace start final\n0 yes no\n\nfrom to on a\n",
        "tick\n\nplaces\n0 yes no\n\nfrom to on a\n",
        "tick\n100\n100\n\nplace",
        "tick\n100\n\nplaces\n 0 yes no\n\nfrom to on a\n",
        "tick\n100\n\nplace start final\n0 yes\n\n\nfrom to on a\n",
        "tick\n100\n\nplace start final\n1 yes no\n\nfrom to on 1\n",
        "tick\n100\n\nplace start final\n\nfrom to on 1\n",
        "tick\n100\n\nplace start final\n0 yes\n1 no yes\n",
        "tick\n100\n\nplace start final\n0 yes no\n\nfrom to on a1\n0 0 a x",
        "tick\n100\n\nplace start final\n0 yes no\n\nfrom to on\n0 0\n",
        "tick\n100\n\nplace start final\n0 yes no\n\nfrom to on a\n1 0 a any\n0 0 b any\n",
        "tick\n100\n\nplace start final\n0 yes no\n\nfrom to on a\n0 0 b any\n1 0 a any\n",
        "tick\n100\n\nplace start final\n0 yes no\n\nfrom to on a\n0 0 b any\n\n",
        "tick\n100\n\nplace start final\n0 yes no\n\nfrom to on a\n0 0 b any\n0 0 a any",
    ],
};

pub(crate) const TRIALS: &[Trials] = &[CUT_SHORT, SHEETS, BYTES, TWO_FAULTS];

const START: &str = "tick\n100\n\nplace start final\n";

// The rows of 32 places.
const THIRTY_TWO: &str =
    "0 yes no\n1 yes no\n2 yes no\n3 yes no\n4 yes no\n5 yes no\n6 yes no\n7 yes no\n\
    8 yes no\n9 yes no\n10 yes no\n11 yes no\n12 yes no\n13 yes no\n14 yes no\n15 yes no\n\
    16 yes no\n17 yes no\n18 yes no\n19 yes no\n20 yes no\n21 yes no\n22 yes no\n23 yes no\n\
    24 yes no\n25 yes no\n26 yes no\n27 yes no\n28 yes no\n29 yes no\n30 yes no\n31 yes no\n";

const EDGES: &str = "\nfrom to on a\n";

const ONE_PLACE: &str = "tick\n100\n\nplace start final\n0 yes no\n\nfrom to on a\n";

const EDGE: &str = "0 0 a any\n";

const PLAIN: LongTrial = LongTrial {
    what: "plain",
    kind: Kind::Table,
    before: &[],
    repeated: "",
    times: 0,
    after: "",
};

pub(crate) const LONG: &[LongTrial] = &[
    LongTrial {
        what: "table, 0 places",
        before: &[START, EDGES],
        ..PLAIN
    },
    LongTrial {
        what: "table, 1 place",
        before: &[ONE_PLACE],
        ..PLAIN
    },
    LongTrial {
        what: "table, 32 places",
        before: &[START, THIRTY_TWO, EDGES],
        ..PLAIN
    },
    LongTrial {
        what: "table, 33 places",
        before: &[START, THIRTY_TWO, "32 yes no\n", EDGES],
        ..PLAIN
    },
    LongTrial {
        what: "table, 34 places",
        before: &[START, THIRTY_TWO, "32 yes no\n33 yes no\n", EDGES],
        ..PLAIN
    },
    LongTrial {
        what: "table, 32 places and a bad word",
        before: &[START, THIRTY_TWO, "x\n", EDGES],
        ..PLAIN
    },
    LongTrial {
        what: "table, 32 places and wrong spacing",
        before: &[START, THIRTY_TWO, "32 yes no \n", EDGES],
        ..PLAIN
    },
    LongTrial {
        what: "table, 32 places and the next head at once",
        before: &[START, THIRTY_TWO, "from to on a\n"],
        repeated: EDGE,
        times: 1,
        ..PLAIN
    },
    LongTrial {
        what: "table, 32 places and two empty lines",
        before: &[START, THIRTY_TWO, "\n", EDGES],
        ..PLAIN
    },
    LongTrial {
        what: "table, 32 places and no more",
        before: &[START, THIRTY_TWO],
        ..PLAIN
    },
    LongTrial {
        what: "table, 33 places and no more",
        before: &[START, THIRTY_TWO, "32 yes no\n"],
        ..PLAIN
    },
    LongTrial {
        what: "table, 33 places, the last not ended",
        before: &[START, THIRTY_TWO, "32 yes no"],
        ..PLAIN
    },
    LongTrial {
        what: "table, 32 places, an empty line and no more",
        before: &[START, THIRTY_TWO, "\n"],
        ..PLAIN
    },
    LongTrial {
        what: "table, from 31 to 31 of 32 places",
        before: &[START, THIRTY_TWO, EDGES],
        after: "31 31 a any\n",
        ..PLAIN
    },
    LongTrial {
        what: "table, from 32 of 32 places",
        before: &[START, THIRTY_TWO, EDGES],
        after: "32 0 a any\n",
        ..PLAIN
    },
    LongTrial {
        what: "table, to 32 of 32 places",
        before: &[START, THIRTY_TWO, EDGES],
        after: "0 32 a any\n",
        ..PLAIN
    },
    LongTrial {
        what: "table, from 0 to 0 of 1 place",
        before: &[ONE_PLACE],
        repeated: EDGE,
        times: 1,
        ..PLAIN
    },
    LongTrial {
        what: "table, from 1 of 1 place",
        before: &[ONE_PLACE],
        after: "1 0 a any\n",
        ..PLAIN
    },
    LongTrial {
        what: "table, to 1 of 1 place",
        before: &[ONE_PLACE],
        after: "0 1 a any\n",
        ..PLAIN
    },
    LongTrial {
        what: "table, 64 edges",
        before: &[ONE_PLACE],
        repeated: EDGE,
        times: 64,
        ..PLAIN
    },
    LongTrial {
        what: "table, 65 edges",
        before: &[ONE_PLACE],
        repeated: EDGE,
        times: 65,
        ..PLAIN
    },
    LongTrial {
        what: "table, 66 edges",
        before: &[ONE_PLACE],
        repeated: EDGE,
        times: 66,
        ..PLAIN
    },
    LongTrial {
        what: "table, 64 edges and a bad word",
        before: &[ONE_PLACE],
        repeated: EDGE,
        times: 64,
        after: "x\n",
        ..PLAIN
    },
    LongTrial {
        what: "table, 64 edges and wrong spacing",
        before: &[ONE_PLACE],
        repeated: EDGE,
        times: 64,
        after: "0  0 a any\n",
        ..PLAIN
    },
    LongTrial {
        what: "table, 64 edges and an empty line",
        before: &[ONE_PLACE],
        repeated: EDGE,
        times: 64,
        after: "\n",
        ..PLAIN
    },
    LongTrial {
        what: "table, 65 edges, the last not ended",
        before: &[ONE_PLACE],
        repeated: EDGE,
        times: 64,
        after: "0 0 a any",
        ..PLAIN
    },
    LongTrial {
        what: "table, 32 places and 64 edges",
        before: &[START, THIRTY_TWO, EDGES],
        repeated: EDGE,
        times: 64,
        ..PLAIN
    },
    LongTrial {
        what: "table, 32 places and 65 edges",
        before: &[START, THIRTY_TWO, EDGES],
        repeated: EDGE,
        times: 65,
        ..PLAIN
    },
    LongTrial {
        what: "table of 32768 bytes, a wrong head",
        repeated: "a",
        times: 32_767,
        after: "\n",
        ..PLAIN
    },
    LongTrial {
        what: "table of 32768 bytes, a wrong byte",
        repeated: "A",
        times: 32_767,
        after: "\n",
        ..PLAIN
    },
    LongTrial {
        what: "table of 32768 bytes, empty lines",
        repeated: "\n",
        times: 32_767,
        after: "\n",
        ..PLAIN
    },
    LongTrial {
        what: "table of 32769 bytes, a wrong head",
        repeated: "a",
        times: 32_768,
        after: "\n",
        ..PLAIN
    },
    LongTrial {
        what: "table of 32769 bytes, a wrong byte",
        repeated: "A",
        times: 32_768,
        after: "\n",
        ..PLAIN
    },
    LongTrial {
        what: "table of 32769 bytes, empty lines",
        repeated: "\n",
        times: 32_768,
        after: "\n",
        ..PLAIN
    },
];
