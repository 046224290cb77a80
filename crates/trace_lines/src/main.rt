// Lists the lines of a trace: standard input is the trace, standard output its listing.
#![tactic(auto)]

use print_buffer::buffers::PrintBuffer;
use std::io::{Read, Write};
use trace_listing::listings::list_trace;

// `check_routine` has the same steps round another function: one for both would be a crate with a trait, and an impl of it here, for these.
fn run(rt: &HostRuntime) -> anyhow::Result<()> {
    let mut input = Vec::new(rt.alloc());
    rt.stdin().read_to_end(&mut input)?;
    let listing = list_trace(rt.alloc(), input.as_slice())?;
    rt.stdout().write_all(listing.bytes())?;
    Ok(())
}

fn main(rt: HostRuntime) -> anyhow::Result<()> {
    run(&rt)
}
