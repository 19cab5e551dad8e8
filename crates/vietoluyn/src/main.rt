// The program: what stands on standard input, a sheet and then the list to the end, as the listing on standard output.
#![tactic(auto)]

ghost use Rattle.std.specs.Prelude.{◌≤◌, IfOk, length};

use std::io::{self, Read};

// Reads until the buffer is full or the input ends, and answers how many bytes it put at the start of the buffer. (The library has no
// method for that: `read_exact` fails where the input ends.)
fn read_full(input: &mut impl Read, buffer: &mut [u8]) -> io::Result<usize>
    ensures { IfOk result (λ n. n ≤ length buffer.new) }
{
    let mut done: usize = 0;
    while done < buffer.len() {
        let n = input.read(&mut buffer[done..])?;
        if n == 0 {
            break;
        }
        done += n;
    }
    Ok(done)
}

fn main(rt: HostRuntime) -> io::Result<()> {
    // One byte more than is taken, so that too many are seen to be too many.
    let mut input = [0; listing::MOST + 1];
    let mut text = [0; listing::ROOM];
    let n = read_full(&mut rt.stdin(), &mut input)?;
    match listing::list_input(&input[..n], &mut text) {
        Some(size) => rt.write_all(&text[..size]),
        None => Ok(()),
    }
}
