// Reads a picture from standard input and prints its listing.
#![tactic(auto)]

ghost use Rattle.std.specs.Io.{ReadsAtMost};

use listing::TEXT_MAX;
use picture::PICTURE_MAX;
use std::io;
use std::io::{Read, Stdin};

// The longest picture and a byte more: an input that is longer still is listed as these first bytes of it are.
const INPUT_BYTES: usize = PICTURE_MAX + 1;

// Reads until the buffer is full or the input ends: how many bytes it put at the buffer's front.
// Kept: `read_to_end` needs a heap, `read_exact` loses the count of a short input, and after `io::copy` "at most the buffer's length" stayed open.
fn read_full(input: &mut Stdin, buf: &mut [u8]) -> io::Result<usize>
    ensures { ReadsAtMost result buf.new }
{
    let mut done: usize = 0;
    while done < buf.len() {
        let n = input.read(&mut buf[done..])?;
        if n == 0 {
            break;
        }
        done += n;
    }
    Ok(done)
}

fn main(rt: HostRuntime) -> io::Result<()> {
    let mut input = [0u8; INPUT_BYTES];
    let n = read_full(&mut rt.stdin(), &mut input)?;
    let mut text = [0u8; TEXT_MAX];
    let length = listing::list(&input[..n], &mut text);
    rt.write_all(&text[..length])
}
