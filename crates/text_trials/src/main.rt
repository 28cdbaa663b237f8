// Tries the limits of the texts on both sides, every fault, and two faults at once. Each line tells what was tried and what came; the file
// `stdout` beside `src/` has what the rules say.

#![tactic(auto)]

mod distance_texts;
mod entry_texts;
mod showing;
mod table_lines;
mod table_texts;
mod trying;

fn run(rt: &(impl Print + AllocGlobal)) -> anyhow::Result<()> {
    trying::tell_bytes(rt)?;
    trying::try_texts(rt, table_lines::TRIALS, &[])?;
    trying::try_texts(rt, table_texts::TRIALS, table_texts::LONG)?;
    trying::try_texts(rt, distance_texts::TRIALS, distance_texts::LONG)?;
    trying::try_texts(rt, entry_texts::TRIALS, entry_texts::LONG)?;
    showing::show_taken(rt)?;
    Ok(())
}

fn main(rt: HostRuntime) -> anyhow::Result<()> {
    run(&rt)
}
