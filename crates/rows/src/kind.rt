ghost use Rattle.rows.specs.Rows.{columns};
ghost use Rattle.rows.specs.declared.cell.Column.TheVariants.{Within, EventName};
ghost use Rattle.rows.specs.declared.cell.RowKind.TheVariants.{Place};
ghost use Rattle.std.specs.List.{slice_get};
ghost use Rattle.std.specs.Prelude.{◌≡◌, [], ◌∷◌, ◌++◌, min, length, replicate};

use crate::cell::{Column, RowKind};

const TICK: [Column; 1] = [Column::Within(1, 60_000)];

const DISTANCE: [Column; 4] = [
    Column::EventName,
    Column::EventName,
    Column::Within(0, 250),
    Column::NotBelow(250),
];

// Those before the columns of the events.
const CLAIM: [Column; 2] = [
    Column::Within(0, 9_999_999_999),
    Column::Within(0, 9_999_999_999),
];

fn place_columns(number: u64) -> [Column; 3]
    ensures { result ≡ columns (Place number) }
{
    [
        Column::Within(number, number),
        Column::YesOrNo,
        Column::YesOrNo,
    ]
}

// Those before the columns of the events.
fn edge_columns(most: u64) -> [Column; 3]
    ensures { result ≡ Within 0 most ∷ Within 0 most ∷ EventName ∷ [] }
{
    [
        Column::Within(0, most),
        Column::Within(0, most),
        Column::EventName,
    ]
}

// How many of the events have a column: at most eight.
fn event_columns(events: u8) -> usize
    ensures { result ≡ min events 8 }
{
    usize::from(events.min(8))
}

fn column_of(first: &[Column], place: usize) -> Option<Column>
    ensures { result ≡ slice_get first.now place }
{
    first.get(place).copied()
}

// The column of an event, by the event's number.
fn event_column(each: Column, events: u8, event: usize) -> Option<Column>
    ensures { result ≡ slice_get (replicate (min events 8) each) event }
{
    (event < event_columns(events)).then_some(each)
}

// The column at the place where these stand first, and after them one for each event. It is asked for each word, so it walks over none of them.
fn with_events(first: &[Column], each: Column, events: u8, place: usize) -> Option<Column>
    ensures { result ≡ slice_get (first.now ++ replicate (min events 8) each) place }
{
    match place.checked_sub(first.len()) {
        None => column_of(first, place),
        Some(event) => event_column(each, events, event),
    }
}

// The column at the place, from 0; none past the last.
// It is asked for each word of a row, and the call alone would be a tenth of the time.
#[inline(always)]
pub fn column(kind: RowKind, place: usize) -> Option<Column>
    ensures { result ≡ slice_get (columns kind) place }
{
    match kind {
        RowKind::Tick => TICK.get(place).copied(),
        RowKind::Place(number) => place_columns(number).get(place).copied(),
        RowKind::Edge(most, events) => with_events(
            &edge_columns(most),
            Column::Limit,
            events,
            place,
        ),
        RowKind::Distance => DISTANCE.get(place).copied(),
        RowKind::Claim(events) => with_events(&CLAIM, Column::NumberOrNone, events, place),
    }
}

pub fn column_count(kind: RowKind) -> usize
    ensures { result ≡ length (columns kind) }
{
    match kind {
        RowKind::Tick => TICK.len(),
        RowKind::Place(number) => place_columns(number).len(),
        RowKind::Edge(most, events) => edge_columns(most).len() + event_columns(events),
        RowKind::Distance => DISTANCE.len(),
        RowKind::Claim(events) => CLAIM.len() + event_columns(events),
    }
}
