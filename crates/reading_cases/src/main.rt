// Tells the verdicts on many sources: standard input has them one after the other, each behind its length in two bytes,
// the high one first; standard output is a line `number place` for each.
#![tactic(auto)]

mod framing;

use framing::next_source;
use source_check::checking::check_source;
use std::io::{Read, Write};

fn run(rt: &HostRuntime) -> anyhow::Result<()> {
    let mut input = Vec::new(rt.alloc());
    rt.stdin().read_to_end(&mut input)?;
    let mut rest = input.as_slice();
    while let Some((source, after)) = next_source(rest) {
        let line = check_source(rt.alloc(), source)?;
        rt.stdout().write_all(line.bytes())?;
        rest = after;
    }
    Ok(())
}

fn main(rt: HostRuntime) -> anyhow::Result<()> {
    run(&rt)
}
