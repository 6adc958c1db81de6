// Shows the sheet file on standard input: a listing to check it by, or why it is refused.
#![tactic(auto)]

use input::{LONGEST, read_input};
use listing::show;
use std::io;

fn main(rt: HostRuntime) -> io::Result<()> {
    // fixed memory, and a public call that says how many bytes came
    let mut buf = [0u8; LONGEST];
    let n = read_input(&rt, &mut buf)?;
    let text = show(rt.alloc(), &buf[..n])?;
    print!(rt; "{text}")
}
