// Where in a table text the next line stands: at the head or among the rows of one of its three sheets.
// Texts of distances and of entries have stages of their own: other sheets, so that each match names all of them and no other.
#[derive(Clone, Copy, Drop)]
pub enum Stage {
    TickHead,
    TickRows,
    PlaceHead,
    PlaceRows,
    EdgeHead,
    EdgeRows,
}
