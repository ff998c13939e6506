// What the programs print of the answer to a part file: the bytes in a lent slice, and those bytes passed on to a writer.
#![tactic(auto)]

ghost use Rattle.std.specs.Prelude.{◌≡◌, ◌<◌, ◌≤◌, length, take, OnOk};
ghost use Rattle.std.specs.Io.KnownBytes.{Appends};
ghost use Rattle.num_text.specs.Put.{Put};
ghost use Rattle.dfm_print.specs.Print.{refusal_line, AnswerPut};

use num_text::text::Text;
use refusal::Refusal;
use std::io;
use std::io::Write;

// `refused`, a blank and the number on a line, from the start of `out` on. How many bytes they are.
fn put_refusal(out: &mut [u8], number: u32) -> usize
    ensures { Put out.old 0 (refusal_line number) out.new result }
{
    let mut text = Text { out, at: 0 };
    text.put_bytes(b"refused ");
    text.put_number(number as u64);
    text.put_byte(10);
    text.at
}

// What is printed of an answer, at the start of the report's buffer: the report, which stands there, or the refusal. How many bytes they are.
pub fn put_answer(report: &mut [u8], answer: Result<usize, Refusal>) -> usize
    ensures { AnswerPut answer report.old report.new result }
{
    match answer {
        Ok(length) => length,
        Err(refusal) => put_refusal(report, refusal.number()),
    }
}

// Passes the first bytes on to a writer; where there are not so many, none.
pub fn print_first<W: Write>(output: &mut W, bytes: &[u8], count: usize) -> io::Result<()>
    ensures written { count ≤ length bytes.now → OnOk result (Appends (W.contents output.old) (W.contents output.new) (take count bytes.now)) }
    ensures none { length bytes.now < count → output.new ≡ output.old }
{
    if bytes.len() < count {
        return Ok(());
    }
    output.write_all(&bytes[..count])
}
