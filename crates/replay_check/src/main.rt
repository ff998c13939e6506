// Replays the fixed list of part files through the check, and prints each answer as the program prints it. On standard input a file stands after five
// u32: the length of what follows, then how many u32 and f64 of scratch, fault rows (512 or none) and report bytes are lent; then the file, packed.
#![tactic(auto)]

ghost use Rattle.std.specs.Prelude.{◌≤◌};

use dfm_own::{check_own, check_rowless};
use dfm_print::{print_first, put_answer};
use file_field::read::u32_at;
use refusal::Refusal;
use std::io;
use std::io::{Read, Write};
use stream::read_full;

// The longest file of the list, 1,025 triangles.
const LONGEST: usize = 155_944;

const LONGEST_PACKED: usize = 131_072;

// What is lent at most: enough for a file of 16,384 bytes.
const WORDS: usize = 6_432;

const REALS: usize = 7_456;

const REPORT: usize = 65_536;

// How much of each slice is lent.
#[derive(Clone, Copy)]
struct Lent {
    words: usize,
    reals: usize,
    rows: usize,
    report: usize,
}

// Checks a file with 512 fault rows, or with none.
fn check_with(
    file: &[u8],
    words: &mut [u32],
    reals: &mut [f64],
    rows: usize,
    report: &mut [u8],
) -> Result<usize, Refusal> {
    if rows == 0 {
        return check_rowless(file, words, reals, report);
    }
    check_own(file, words, reals, report)
}

// Checks a file with so much lent, and prints the answer.
fn answer<W: Write>(
    output: &mut W,
    file: &[u8],
    words: &mut [u32],
    reals: &mut [f64],
    report: &mut [u8],
    lent: Lent,
) -> io::Result<()> {
    let w = lent.words.min(words.len());
    let r = lent.reals.min(reals.len());
    let b = lent.report.min(report.len());
    let answer = check_with(
        file,
        &mut words[..w],
        &mut reals[..r],
        lent.rows,
        &mut report[..b],
    );
    let count = put_answer(report, answer);
    print_first(output, report, count)
}

// Checks a file, and prints the answer.
fn replay_file<W: Write>(output: &mut W, file: &[u8], lent: Lent) -> io::Result<()> {
    let mut words = [0u32; WORDS];
    let mut reals = [0.0f64; REALS];
    let mut report = [0u8; REPORT];
    answer(output, file, &mut words, &mut reals, &mut report, lent)
}

// Replays a file that is packed in n bytes; false where there are not so many.
fn replay<R: Read, W: Write>(
    input: &mut R,
    output: &mut W,
    file: &mut [u8],
    packed: &mut [u8],
    n: usize,
    lent: Lent,
) -> io::Result<bool> {
    if packed.len() < n {
        return Ok(false);
    }
    if read_full(input, &mut packed[..n])? < n {
        return Ok(false);
    }
    let length = replay_packed::unpack(file, &packed[..n]);
    if length <= file.len() {
        replay_file(output, &file[..length], lent)?;
    } else {
        output.write_all(b"too long\n")?;
    }
    Ok(true)
}

// Replays the next file; false where there is none.
fn replay_next<R: Read, W: Write>(
    input: &mut R,
    output: &mut W,
    file: &mut [u8; LONGEST],
    packed: &mut [u8; LONGEST_PACKED],
) -> io::Result<bool> {
    let mut head = [0u8; 20];
    if read_full(input, &mut head)? < 20 {
        return Ok(false);
    }
    let lent = Lent {
        words: u32_at(&head, 4) as usize,
        reals: u32_at(&head, 8) as usize,
        rows: u32_at(&head, 12) as usize,
        report: u32_at(&head, 16) as usize,
    };
    replay(input, output, file, packed, u32_at(&head, 0) as usize, lent)
}

fn main(rt: HostRuntime) -> io::Result<()> {
    let mut input = rt.stdin();
    let mut output = rt.stdout();
    let mut file = [0u8; LONGEST];
    let mut packed = [0u8; LONGEST_PACKED];
    // at most so many files
    for _ in 0..4096 {
        if !replay_next(&mut input, &mut output, &mut file, &mut packed)? {
            break;
        }
    }
    Ok(())
}
