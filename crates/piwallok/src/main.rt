// The program: reads a deposit from its standard input, and says on one line what it found.
#![tactic(auto)]

use deposits::input::INPUT_LIMIT;
use deposits::report::{Report, examine};
use std::io;
use std::io::Read;

fn main(rt: HostRuntime) -> io::Result<()> {
    let mut input = Vec::new(rt.alloc());
    // One byte past the limit shows that there are too many; the others need not be read. (A `usize` becomes a `u64` by
    // `as`, since the library has no `From` for it.)
    rt.stdin()
        .take(INPUT_LIMIT as u64 + 1)
        .read_to_end(&mut input)?;
    let report = Report {
        found: examine(input.as_slice()),
    };
    println!(rt; "{report}")
}
