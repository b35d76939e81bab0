// Reading from an input.
//
// read_full   fills a buffer, as far as the input goes
#![tactic(auto)]

ghost use Rattle.std.specs.Prelude.{◌≤◌, length};

use std::io::Read;

// Fills the buffer from its beginning on until it is full, the input ends or a read fails; how many bytes it put there.
// By a loop, as std's `read_exact` does not tell how many there are, and its `read_to_end` needs a heap.
pub fn read_full<R: Read>(input: &mut R, buf: &mut [u8]) -> usize
    ensures { result ≤ length buf.new }
{
    let mut done = 0;
    while done < buf.len() {
        match input.read(&mut buf[done..]) {
            Ok(0) | Err(_) => break,
            Ok(n) => done += n,
        }
    }
    done
}
