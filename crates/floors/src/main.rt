// Document 01's program `floors`: standard input through `floors_text::floors` to standard output.
#![tactic(auto)]

use records::rooms::room;
use records::words::read_full;
use std::io;

fn main(rt: HostRuntime) -> io::Result<()> {
    // one byte more than the most input, so that too long an input shows
    let mut input = room::<u8, 60001>(0);
    let read = read_full(&mut rt.stdin(), &mut input)?;
    // room for the text of every input
    let mut output = room::<u8, 160000>(0);
    let written = floors_text::floors(&input[..read], &mut output);
    rt.write_all(&output[..written])
}
