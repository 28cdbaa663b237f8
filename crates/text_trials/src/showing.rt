// What readers make of texts that they take.
use crate::trying::{DISTANCES, UNTOUCHED, driver};
use formats::claim::Claim;
use formats::distance::Distance;
use meaning::values::{Edge, Place};
use sheets::distances::read_distances;
use sheets::entries::read_entries_of;
use sheets::list::DistanceList;
use sheets::table::read_table;
use std::io;
use tables::table::Table;

// Eight events, and every kind of bound.
const WIDE: &[u8] = b"tick\n60000\n\n\
    place start final\n0 no no\n1 yes yes\n2 no yes\n\n\
    from to on any none from to on tick yes no\n\
    2 0 no any none 0.. 250.. 0..250 4..4 249..250 none\n\
    0 2 any 1.. any any any any any any 2..3\n";

const ENTRIES: &[u8] = b"at state open steam\n1 2 0 none\n9999999999 0 none 9999999999\n";

fn show_edge(rt: &impl Print, edge: &Edge) -> io::Result<()> {
    print!(rt; "edge: {} {} {}:", edge.source, edge.target, edge.event)?;
    for bound in edge.bounds {
        print!(rt; " {bound}")?;
    }
    println!(rt)
}

fn show_table(rt: &impl Print, table: &Table) -> io::Result<()> {
    println!(rt; "tick {}", table.tick())?;
    for name in table.names() {
        println!(rt; "event {name}")?;
    }
    for Place { start, accepting } in table.places() {
        println!(rt; "place: start {start}, final {accepting}")?;
    }
    for edge in table.edges() {
        show_edge(rt, edge)?;
    }
    Ok(())
}

// The second table takes the place of the first.
fn show_tables(rt: &(impl Print + AllocGlobal)) -> io::Result<()> {
    let heap = rt.alloc();
    let mut table = driver(heap);
    show_table(rt, &table)?;
    let _ = read_table(heap, WIDE, &mut table);
    show_table(rt, &table)
}

fn show_distances(rt: &(impl Print + AllocGlobal), table: &Table) -> io::Result<()> {
    let heap = rt.alloc();
    let mut list = DistanceList::blank(heap);
    let _ = read_distances(heap, DISTANCES, table, &mut list);
    println!(rt; "tick {}, {} events", list.tick(), list.events())?;
    for Distance {
        on,
        since,
        least,
        most,
    } in list.lines() {
        println!(rt; "distance: {on} {since} {least} {most}")?;
    }
    Ok(())
}

fn show_claim(rt: &impl Print, claim: &Claim) -> io::Result<()> {
    print!(rt; "entry: {} {}:", claim.place, claim.state)?;
    for cell in claim.cells {
        match cell {
            None => print!(rt; " none")?,
            Some(number) => print!(rt; " {number}")?,
        }
    }
    println!(rt)
}

// The third claim is left as it was.
fn show_entries(rt: &impl Print, table: &Table) -> io::Result<()> {
    let mut claims = [UNTOUCHED; 3];
    let _ = read_entries_of(ENTRIES, table, &mut claims);
    for claim in &claims {
        show_claim(rt, claim)?;
    }
    Ok(())
}

pub(crate) fn show_taken(rt: &(impl Print + AllocGlobal)) -> io::Result<()> {
    let table = driver(rt.alloc());
    show_tables(rt)?;
    show_distances(rt, &table)?;
    show_entries(rt, &table)
}
