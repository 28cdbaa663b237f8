ghost use Rattle.clocks.specs.Texts.{text};
ghost use Rattle.tables.specs.Forms.{form};
ghost use Rattle.std.specs.List.{list_all, enumerate_from};
ghost use Rattle.tables.specs.Lawful.{is_any, lawful_bound, lawful_bounds, lawful_edge, lawful_edges, lawful_names, different, lawful};
ghost use Rattle.meaning.specs.Stepping.{top, top_of_bounds, cap_of};
ghost use Rattle.std.specs.Prelude.{◌≡◌, ◌≤◌, ◌&&◌, map, length, if◌then◌else◌, ◌==◌, nat_lt};

use clocks::name::Name;
use clocks::search::position;
use meaning::values::{Bound, Edge, Place};

fn lawful_bound(bound: Bound) -> bool
    ensures { result ≡ lawful_bound bound }
{
    match bound {
        Bound::Any | Bound::Never => true,
        Bound::AtLeast(least) => least <= 250,
        Bound::Between(least, most) => least <= most && most <= 250,
    }
}

// An event's bound is lawful, and past the events there is `any`.
fn lawful_bound_at(bound: Bound, event: usize, events: usize) -> bool
    ensures { result ≡ (if nat_lt event events then lawful_bound bound else is_any bound) }
{
    if event < events {
        lawful_bound(bound)
    } else {
        matches!(bound, Bound::Any)
    }
}

// This and `each_edge_lawful` stand alone: a chain's result is found by the function's contract, and not inside a larger body.
fn each_bound_lawful(bounds: &[Bound], events: usize) -> bool
    ensures { result ≡ list_all (λ p. if nat_lt p.0 events then lawful_bound p.1 else is_any p.1) (enumerate_from 0 bounds.now) }
{
    bounds
        .iter()
        .enumerate()
        .all(|(event, bound)| lawful_bound_at(*bound, event, events))
}

fn lawful_bounds(bounds: &[Bound; 8], events: usize) -> bool
    ensures { result ≡ (length bounds.now == 8 && lawful_bounds events 0 bounds.now) }
{
    each_bound_lawful(bounds, events)
}

fn lawful_edge(edge: &Edge, events: usize, places: usize) -> bool
    ensures { result ≡ lawful_edge events places edge.now }
{
    usize::from(edge.source) < places
        && usize::from(edge.target) < places
        && usize::from(edge.event) < events
        && lawful_bounds(&edge.bounds, events)
}

fn each_edge_lawful(edges: &[Edge], events: usize, places: usize) -> bool
    ensures { result ≡ list_all (lawful_edge events places) edges.now }
{
    edges.iter().all(|edge| lawful_edge(edge, events, places))
}

#[tactic(auto, using(crate::proofs::Lawfulness::edges_by_all))]
fn lawful_edges(edges: &[Edge], events: usize, places: usize) -> bool
    ensures { result ≡ lawful_edges events places edges.now }
{
    edges.len() <= 64 && each_edge_lawful(edges, events, places)
}

// No name stands again later in the list.
fn all_different(names: &[Name]) -> bool
    ensures { result ≡ different (map text names.now) }
{
    match names {
        [] => true,
        [name, later @ ..] => position(later, name).is_none() && all_different(later),
    }
}

fn lawful_names(names: &[Name]) -> bool
    ensures { result ≡ lawful_names (map text names.now) }
{
    !names.is_empty() && names.len() <= 8 && all_different(names)
}

// Whether these may be the parts of a table. They are what `Table::new` takes, and a struct of them would be the table again.
pub(crate) fn are_lawful(tick: u16, names: &[Name], places: &[Place], edges: &[Edge]) -> bool
    ensures { result ≡ lawful (form tick names.now places.now edges.now) }
{
    tick != 0
        && tick <= 60_000
        && lawful_names(names)
        && !places.is_empty()
        && places.len() <= 32
        && lawful_edges(edges, names.len(), places.len())
}

fn top_of_bound(bound: Bound) -> u8
    ensures { result ≡ top bound }
{
    match bound {
        Bound::Any | Bound::Never => 0,
        Bound::AtLeast(least) => least,
        Bound::Between(least, most) => least.max(most),
    }
}

fn top_of_bounds(bounds: &[Bound; 8]) -> u8
    ensures { result ≡ top_of_bounds bounds.now }
{
    bounds
        .iter()
        .fold(0, |most, bound| top_of_bound(*bound).max(most))
}

// The largest number in the bounds, or 0.
pub(crate) fn cap_of(edges: &[Edge]) -> u8
    ensures { result ≡ cap_of edges.now }
{
    edges
        .iter()
        .fold(0, |most, edge| top_of_bounds(&edge.bounds).max(most))
}
