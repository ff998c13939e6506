// Replays a fixed list of Rust's answers: for each f64 pattern of standard input, 16 hexadecimal digits to a line, prints the pattern of
// its root and its decimals with 0 to 3 places, `refused 13` for one that is refused.
#![tactic(auto)]

ghost use Rattle.std.specs.Prelude.{◌<◌};

use num_text::text::Text;
use refusal::Refusal;
use std::io;
use std::io::{Read, Write};
use stream::read_full;

// The value of a lower-case hexadecimal digit; 0 for any other byte.
fn digit(c: u8) -> u64
    ensures { result < 16 }
{
    match c {
        48..=57 => (c - 48) as u64,
        97..=102 => (c - 87) as u64,
        _ => 0,
    }
}

// The number that hexadecimal digits stand for, of which the last 16 count.
fn pattern(digits: &[u8]) -> u64 {
    let mut b: u64 = 0;
    for c in digits {
        b = (b % 0x1000_0000_0000_0000) * 16 + digit(*c);
    }
    b
}

// x with so many places after a blank, or the refusal.
fn put_places(text: &mut Text<'_>, x: f64, places: u32) {
    text.put_byte(b' ');
    let start = text.at;
    text.put_decimal(x, places);
    if text.at == start {
        text.put_bytes(b"refused ");
        text.put_number(u64::from(Refusal::NoDecimal.number()));
    }
}

fn put_line(text: &mut Text<'_>, b: u64) {
    let x = num_real::bits::from_bits(b);
    text.put_hex(num_root::sqrt_bits(b));
    for places in 0..4u32 {
        put_places(text, x, places);
    }
    text.put_byte(b'\n');
}

// Replays a line; false where there is none.
fn replay_line<R: Read, W: Write>(input: &mut R, output: &mut W) -> io::Result<bool> {
    let mut digits = [0u8; 16];
    if read_full(input, &mut digits)? < 16 {
        return Ok(false);
    }
    let b = pattern(&digits);
    let mut line_feed = [0u8; 1];
    read_full(input, &mut line_feed)?;
    let mut line = [0u8; 128];
    let mut text = Text {
        out: &mut line,
        at: 0,
    };
    put_line(&mut text, b);
    if text.at <= text.out.len() {
        output.write_all(text.written())?;
    }
    Ok(true)
}

fn main(rt: HostRuntime) -> io::Result<()> {
    let mut input = rt.stdin();
    let mut output = rt.stdout();
    // at most so many lines
    for _ in 0..4096 {
        if !replay_line(&mut input, &mut output)? {
            break;
        }
    }
    Ok(())
}
