// Tells the verdict on a routine: standard input is its source, standard output `number place`, `0 0` if it reads.
#![tactic(auto)]

use print_buffer::buffers::PrintBuffer;
use source_check::checking::check_source;
use std::io::{Read, Write};

// `trace_lines` has the same steps round another function: one for both would be a crate with a trait, and an impl of it here, for these.
fn run(rt: &HostRuntime) -> anyhow::Result<()> {
    let mut input = Vec::new(rt.alloc());
    rt.stdin().read_to_end(&mut input)?;
    let line = check_source(rt.alloc(), input.as_slice())?;
    rt.stdout().write_all(line.bytes())?;
    Ok(())
}

fn main(rt: HostRuntime) -> anyhow::Result<()> {
    run(&rt)
}
