// What a line of an entries text says, before anyone has judged it: a place, a state and a number or none for each of eight events.
#[derive(Clone, Copy, PartialEq, Eq, Drop, Debug)]
pub struct Claim {
    pub place: u64,
    pub state: u64,
    pub cells: [Option<u64>; 8],
}

// Where in an entries text the next line stands: at the head or among the rows.
// Not one enum with the stages of the other texts: see `Stage`.
#[derive(Clone, Copy, Drop)]
pub enum EntryStage {
    Head,
    Rows,
}
