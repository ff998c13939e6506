// The decimal writer.
ghost use Rattle.exports.specs.Decimal.{Returns};

// x with so many places in the first bytes of `out`, and how many in `written`. 0, or the refusal's number, 13.
#[unsafe(no_mangle)]
pub extern "C" fn gablemadder_decimal(
    x: f64,
    places: u32,
    out: &mut [u8],
    written: &mut usize,
) -> u32
    ensures { Returns x places out.old out.new written.old written.new result }
{
    match num_text::decimal::decimal(x, places, out) {
        Ok(n) => {
            *written = n;
            0
        }
        Err(refusal) => refusal.number(),
    }
}
