ghost use Rattle.rows.specs.Pieces.{number_within, yes_or_no, event_named, limit_named, limit_from, limit_between, limit_of_parts, any_number, no_number, cell_from_token};
ghost use Rattle.rows.specs.Rows.{cell_of};
ghost use Rattle.rows.specs.declared.cell.WordFault.TheVariants.{Misfit};
ghost use Rattle.clocks.specs.Texts.{text};
ghost use Rattle.texts.specs.Numbers.{number};
ghost use Rattle.texts.specs.Tokens.{piece};
ghost use Rattle.std.specs.Option.{ok_or};
ghost use Rattle.std.specs.Str.{bytes_eq};
ghost use Rattle.std.specs.Prelude.{◌≡◌, map, take};

use crate::cell::{Cell, Column, WordFault};
use clocks::events::Events;
use clocks::name::Name;
use meaning::values::Bound;
use texts::numbers::value;
use texts::tokens::{Token, token_of};

// The number that the word is.
fn number_in_word(word: &[u8]) -> Result<u64, WordFault>
    ensures { result ≡ ok_or (number word.now) Misfit }
{
    value(word).ok_or(WordFault::Misfit)
}

fn number_within(digits: &[u8], least: u64, most: u64) -> Result<Cell, WordFault>
    ensures { result ≡ number_within least most digits.now }
{
    let number = number_in_word(digits)?;
    if (least..=most).contains(&number) {
        Ok(Cell::Number(number))
    } else {
        Err(WordFault::OutOfRange)
    }
}

fn any_number(digits: &[u8]) -> Result<Cell, WordFault>
    ensures { result ≡ any_number digits.now }
{
    number_in_word(digits).map(Cell::Number)
}

// Whether the word is the sought one.
// One line over the `==` of slices: a public name, whose promise says it in the word of the specs, `bytes_eq`.
pub fn is_word(word: &[u8], sought: &[u8]) -> bool
    ensures { result ≡ bytes_eq word.now sought.now }
{
    *word == *sought
}

fn no_number(word: &[u8]) -> Result<Cell, WordFault>
    ensures { result ≡ no_number word.now }
{
    match word {
        b"none" => Ok(Cell::Absent),
        _ => Err(WordFault::Misfit),
    }
}

fn yes_or_no(word: &[u8]) -> Result<Cell, WordFault>
    ensures { result ≡ yes_or_no word.now }
{
    match word {
        b"yes" => Ok(Cell::Flag(true)),
        b"no" => Ok(Cell::Flag(false)),
        _ => Err(WordFault::Misfit),
    }
}

fn limit_named(word: &[u8]) -> Result<Cell, WordFault>
    ensures { result ≡ limit_named word.now }
{
    match word {
        b"any" => Ok(Cell::Bounded(Bound::Any)),
        b"none" => Ok(Cell::Bounded(Bound::Never)),
        _ => Err(WordFault::Misfit),
    }
}

fn limit_from(least: u64) -> Result<Cell, WordFault>
    ensures { result ≡ limit_from least }
{
    match u8::try_from(least) {
        Ok(least @ ..=250) => Ok(Cell::Bounded(Bound::AtLeast(least))),
        _ => Err(WordFault::OutOfRange),
    }
}

fn limit_between(least: u64, most: u64) -> Result<Cell, WordFault>
    ensures { result ≡ limit_between least most }
{
    match (u8::try_from(least), u8::try_from(most)) {
        (Ok(least), Ok(most @ ..=250)) if least <= most => Ok(Cell::Bounded(Bound::Between(
            least, most,
        ))),
        _ => Err(WordFault::OutOfRange),
    }
}

// An empty second part is a bound without an end.
fn limit_of_parts(first: &[u8], second: &[u8]) -> Result<Cell, WordFault>
    ensures { result ≡ limit_of_parts first.now second.now }
{
    let least = number_in_word(first)?;
    if second.is_empty() {
        limit_from(least)
    } else {
        limit_between(least, number_in_word(second)?)
    }
}

fn event_named(events: &Events<'_>, word: &[u8]) -> Result<Cell, WordFault>
    ensures { result ≡ event_named events.now word.now }
{
    events
        .number_of(word)
        .map(Cell::Event)
        .ok_or(WordFault::Misfit)
}

// What a token gives in a column. An event is told by its word, in `read_cell`.
fn cell_from_token(column: Column, before: u64, token: Token) -> Result<Cell, WordFault>
    ensures { result ≡ cell_from_token column before (piece token.entry) }
{
    match (column, token) {
        (Column::Within(least, most), Token::Number { bytes, .. }) => number_within(
            bytes, least, most,
        ),
        (Column::NotBelow(most), Token::Number { bytes, .. }) => number_within(bytes, before, most),
        (Column::YesOrNo, Token::Name { bytes, .. }) => yes_or_no(bytes),
        (Column::Limit, Token::Name { bytes, .. }) => limit_named(bytes),
        (Column::Limit, Token::Bound { first, second, .. }) => limit_of_parts(first, second),
        (Column::NumberOrNone, Token::Name { bytes, .. }) => no_number(bytes),
        (Column::NumberOrNone, Token::Number { bytes, .. }) => any_number(bytes),
        _ => Err(WordFault::Misfit),
    }
}

// The cell that the word gives in the column; `before` is the number in the cell before it.
pub fn read_cell_for(
    column: Column,
    events: &Events<'_>,
    before: u64,
    word: &[u8],
    line: u32,
) -> Result<Cell, WordFault>
    ensures { result ≡ cell_of column events.now before word.now }
{
    match column {
        // The events tell by themselves which words are names.
        Column::EventName => event_named(events, word),
        _ => cell_from_token(column, before, token_of(word, line)),
    }
}

// The same for any list of names. Names past the eighth name no event.
pub fn read_cell(
    column: Column,
    names: &[Name],
    before: u64,
    word: &[u8],
    line: u32,
) -> Result<Cell, WordFault>
    ensures { result ≡ cell_of column (take 8 (map text names.now)) before word.now }
{
    read_cell_for(column, &Events::first_eight(names), before, word, line)
}
