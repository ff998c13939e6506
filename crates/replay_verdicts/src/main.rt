// Replays a fixed list of part files: prints the number of the refusal from 1 to 7 that each meets, 0 for none, a line for each. On standard
// input a file stands after a u32, the length of what follows, with each run of zero bytes as a zero and the run's length.
#![tactic(auto)]

use std::io;
use std::io::{Read, Write};
use stream::read_full;

// The longest file of the list, 16,384 vertices and 4,097 polygons.
const LONGEST: usize = 721_120;

const LONGEST_PACKED: usize = 131_072;

// Prints the number of the file in the first bytes of `room`.
fn print_number<W: Write>(output: &mut W, room: &[u8], length: usize) -> io::Result<()> {
    if length <= room.len() {
        let number = match file_ok::verdict::judge(&room[..length]) {
            Ok(()) => 0,
            Err(refusal) => refusal.number(),
        };
        writeln!(output, "{number}")
    } else {
        output.write_all(b"too long\n")
    }
}

// Replays a file that is packed in n bytes; false where there are not so many.
fn replay<R: Read, W: Write>(
    input: &mut R,
    output: &mut W,
    file: &mut [u8],
    packed: &mut [u8],
    n: usize,
) -> io::Result<bool> {
    if packed.len() < n {
        return Ok(false);
    }
    if read_full(input, &mut packed[..n])? < n {
        return Ok(false);
    }
    let length = replay_packed::unpack(file, &packed[..n]);
    print_number(output, file, length)?;
    Ok(true)
}

// Replays the next file; false where there is none.
fn replay_next<R: Read, W: Write>(
    input: &mut R,
    output: &mut W,
    file: &mut [u8; LONGEST],
    packed: &mut [u8; LONGEST_PACKED],
) -> io::Result<bool> {
    let mut size = [0u8; 4];
    if read_full(input, &mut size)? < 4 {
        return Ok(false);
    }
    replay(
        input,
        output,
        file,
        packed,
        file_field::read::u32_at(&size, 0) as usize,
    )
}

fn main(rt: HostRuntime) -> io::Result<()> {
    let mut input = rt.stdin();
    let mut output = rt.stdout();
    let mut file = [0u8; LONGEST];
    let mut packed = [0u8; LONGEST_PACKED];
    // at most so many files
    for _ in 0..4096 {
        if !replay_next(&mut input, &mut output, &mut file, &mut packed)? {
            break;
        }
    }
    Ok(())
}
