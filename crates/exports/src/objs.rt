// The part file of OBJ text.
ghost use Rattle.exports.specs.Obj.{Returned};

use obj::convert::obj_to_part;

// The part file of the polygons of `text`, with the job of 128 bytes, in the first bytes of `out`, how many in `written`, and 0; or the refusal's
// number, 14, 15, 3, 5 or 16.
#[unsafe(no_mangle)]
pub extern "C" fn gablemadder_obj(
    text: &[u8],
    job: &[u8],
    out: &mut [u8],
    written: &mut usize,
) -> u32
    ensures { Returned text.now job.now out.old out.new written.old written.new result }
{
    match obj_to_part(text, job, out) {
        Ok(n) => {
            *written = n;
            0
        }
        Err(refusal) => refusal.number(),
    }
}
