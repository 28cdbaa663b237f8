// A line of a text as it stands there: whether it is the last one, and whether byte 10 ends it.
// Plain data with public fields, so it has no `Model`: contracts read what is judged of it by `line_in`, and its number apart.
#[derive(Clone, Copy, Drop)]
pub struct TextLine<'a> {
    pub bytes: &'a [u8],
    pub last: bool,
    pub ended: bool,
    pub number: u32,
}

// How many rows a sheet may have, and how many sheets follow it.
#[derive(Clone, Copy, Drop)]
pub struct SheetLimits {
    pub least: usize,
    pub most: usize,
    pub more: usize,
}

// A sheet among whose rows a line stands: what it may have, and how many rows it has so far.
#[derive(Clone, Copy, Drop)]
pub struct SheetRows {
    pub limits: SheetLimits,
    pub count: usize,
}
