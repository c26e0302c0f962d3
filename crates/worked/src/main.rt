// The worked walks, run through the calls: what each answers, and what every buffer holds then. The walks stand in the file
// stdin.
#![tactic(auto)]

mod limits;
mod show;
mod walks;

use std::io;
use std::io::{BufWriter, Read, Write};

// bytes of the walks at most
const MOST_INPUT: u64 = 4_096;

fn main(rt: HostRuntime) -> io::Result<()> {
    let mut input = Vec::new(rt.alloc());
    rt.stdin().take(MOST_INPUT).read_to_end(&mut input)?;
    let mut out = BufWriter::new(rt.alloc(), rt.stdout())?;
    walks::each(&mut out, &input)?;
    limits::all(&mut out)?;
    out.flush()
}
