// What a line of a distance text says: two events by their numbers, and the least and the most that lies between them.
#[derive(Clone, Copy, PartialEq, Eq, Drop, Debug)]
pub struct Distance {
    pub on: u8,
    pub since: u8,
    pub least: u8,
    pub most: u8,
}

// Where in a distance text the next line stands: at the head or among the rows of one of its two sheets.
// Not one enum with the stages of the other texts: see `Stage`.
#[derive(Clone, Copy, Drop)]
pub enum DistanceStage {
    TickHead,
    TickRows,
    LineHead,
    LineRows,
}
