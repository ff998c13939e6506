// Text at a place of a lent slice.
ghost use Rattle.num_text.specs.Put.{Put};
ghost use Rattle.num_text.specs.Number.{numeral, hex16, thousandths};
ghost use Rattle.num_text.specs.Decimal.{decimal_text};

use num_text::text::Text;

#[unsafe(no_mangle)]
pub extern "C" fn gablemadder_put_bytes(out: &mut [u8], at: usize, s: &[u8]) -> usize
    ensures { Put out.old at s.now out.new result }
{
    let mut text = Text { out, at };
    text.put_bytes(s);
    text.at
}

#[unsafe(no_mangle)]
pub extern "C" fn gablemadder_put_number(out: &mut [u8], at: usize, n: u64) -> usize
    ensures { Put out.old at (numeral n) out.new result }
{
    let mut text = Text { out, at };
    text.put_number(n);
    text.at
}

#[unsafe(no_mangle)]
pub extern "C" fn gablemadder_put_hex(out: &mut [u8], at: usize, bits: u64) -> usize
    ensures { Put out.old at (hex16 bits) out.new result }
{
    let mut text = Text { out, at };
    text.put_hex(bits);
    text.at
}

#[unsafe(no_mangle)]
pub extern "C" fn gablemadder_put_thousandths(out: &mut [u8], at: usize, n: u64) -> usize
    ensures { Put out.old at (thousandths n) out.new result }
{
    let mut text = Text { out, at };
    text.put_thousandths(n);
    text.at
}

#[unsafe(no_mangle)]
pub extern "C" fn gablemadder_put_decimal(out: &mut [u8], at: usize, x: f64, places: u32) -> usize
    ensures { Put out.old at (decimal_text x places) out.new result }
{
    let mut text = Text { out, at };
    text.put_decimal(x, places);
    text.at
}
