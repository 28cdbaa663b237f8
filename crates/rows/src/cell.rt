use meaning::values::Bound;

// What one word of a row says.
#[derive(Clone, Copy, Drop, PartialEq, Eq, Debug)]
pub enum Cell {
    Number(u64),
    // `none` where a number may stand.
    Absent,
    // `yes` or `no`.
    Flag(bool),
    // The number of an event.
    Event(u8),
    Bounded(Bound),
}

// What a column takes.
#[derive(Clone, Copy, Drop, PartialEq, Eq, Debug)]
pub enum Column {
    // A number from the first to the second.
    Within(u64, u64),
    // A number up to this one, and not below the number in the cell before it.
    NotBelow(u64),
    YesOrNo,
    // The name of an event.
    EventName,
    // A bound: any, none, or numbers up to 250.
    Limit,
    // Any number that a text can write, or `none`.
    NumberOrNone,
}

// The kinds of rows that there are. An edge tells the largest place number, and an edge and a claim how many events there are, at most eight.
#[derive(Clone, Copy, Drop, PartialEq, Eq, Debug)]
pub enum RowKind {
    Tick,
    // A place, which has to have this number.
    Place(u64),
    Edge(u64, u8),
    Distance,
    Claim(u8),
}

// What is wrong with a row: its words are too many or too few, or one is nothing that its column takes; or a number is out of range.
#[derive(Clone, Copy, Drop, PartialEq, Eq, Debug)]
pub enum WordFault {
    Misfit,
    OutOfRange,
}

// The cells of a row. No kind has more than eleven columns, and past the last the cells are absent.
// Reading entries allocates nothing, so the cells stand in the row itself.
#[derive(Clone, Copy, Drop, PartialEq, Eq, Debug)]
pub struct Row {
    pub cells: [Cell; 11],
}
