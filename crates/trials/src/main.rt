// Tries every limit on both sides. Each line tells what was tried and what came; the file `stdout` beside `src/` has what the rules say.

#![tactic(auto)]

mod parts;
mod words;

fn run(rt: &(impl Print + AllocGlobal)) -> anyhow::Result<()> {
    parts::try_parts(rt)?;
    words::try_words(rt)
}

fn main(rt: HostRuntime) -> anyhow::Result<()> {
    run(&rt)
}
