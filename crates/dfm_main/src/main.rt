// Checks the part file on standard input: prints its report, `refused` with a blank and the number, or `too long` for more than 16,384 bytes.
#![tactic(auto)]

ghost use Rattle.std.specs.Prelude.{length};
ghost use Rattle.num_text.specs.Put.{Put};
ghost use Rattle.dfm_main.specs.Program.{program_text};

use dfm_own::check_own;
use dfm_print::{print_first, put_answer};
use num_text::text::Text;
use std::io;
use stream::read_full;

// The longest file.
const LONGEST: usize = 16_384;

// One byte more than that shows that a file is longer.
const READ: usize = 16_385;

// Scratch for any such file: 12P + 8V + 1,024 and 24P + 8V + 2,048 are the most with vertices alone.
const WORDS: usize = 6_432;

const REALS: usize = 7_456;

const REPORT: usize = 65_536;

// What is printed for a file, from the start of `out` on, which is lent to the check for its report; 512 fault rows are lent. How many bytes it is.
fn put_printed(file: &[u8], out: &mut [u8]) -> usize
    ensures { Put out.old 0 (program_text file.now (length out.old)) out.new result }
{
    if LONGEST < file.len() {
        let mut text = Text { out, at: 0 };
        text.put_bytes(b"too long\n");
        return text.at;
    }
    let mut words = [0u32; WORDS];
    let mut reals = [0.0f64; REALS];
    let answer = check_own(file, &mut words, &mut reals, out);
    put_answer(out, answer)
}

fn main(rt: HostRuntime) -> io::Result<()> {
    let mut file = [0u8; READ];
    let n = read_full(&mut rt.stdin(), &mut file)?;
    let mut out = [0u8; REPORT];
    let count = put_printed(&file[..n], &mut out);
    print_first(&mut rt.stdout(), &out, count)
}
