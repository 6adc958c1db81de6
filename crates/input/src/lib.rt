// Input as bytes in a buffer.
#![tactic(auto)]

ghost use Rattle.std.specs.Prelude.{ℕ, ◌≤◌, length, IfOk};
ghost use Rattle.input.specs.Filling.{Filled};

use std::io;
use std::io::Read;

// The longest file that the programs look at.
pub const LONGEST: usize = 8192;

// Reads up to the end of the input or the buffer's, and says how many bytes came. The library's own loops either read to the
// end of the input, into a vector, or take an end before the buffer's for a fault.
pub fn read_into<R: Read>(input: &mut R, buf: &mut [u8]) -> io::Result<usize>
    ensures { IfOk result (Filled (R.remaining input.old) (R.remaining input.new) buf.old buf.new) }
{
    // by a count: were the rest of the buffer lent on in each turn, the whole would have to be told through a chain of loans
    let mut n = 0;
    while n < buf.len() {
        let got = input.read(&mut buf[n..])?;
        if got == 0 {
            break;
        }
        n += got;
    }
    Ok(n)
}

// The same of standard input: of what a system gives nothing is known but that it fits.
pub fn read_input(rt: &HostRuntime, buf: &mut [u8]) -> io::Result<usize>
    ensures { IfOk result (λ n. n ≤ length buf.old) }
{
    read_into(&mut rt.stdin(), buf)
}
