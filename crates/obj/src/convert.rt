// OBJ text and a job as a part file.
ghost use Rattle.std.specs.Prelude.{◌≡◌};
ghost use Rattle.obj.specs.Converts.{Converts};
ghost use Rattle.obj.specs.Work.{size_refusal};

use crate::write::write;
use obj_text::judge::judge;
use refusal::Refusal;

// Refusals 3, 5 and 16.
fn size_refusal(vertices: usize, polygons: usize, job: usize, room: usize) -> Result<(), Refusal>
    ensures { result ≡ size_refusal vertices polygons job room }
{
    if 16384 < vertices || 4096 < polygons {
        return Err(Refusal::TooLarge);
    }
    if job != 128 {
        return Err(Refusal::BadJob);
    }
    if room < 24 * vertices + 80 * polygons + 144 {
        return Err(Refusal::OutputTooShort);
    }
    Ok(())
}

// The part file of the text's polygons and the job, in the first bytes of `out`, and how long it is; or refusal 14, 15, 3, 5 or 16. The tables
// are longer than a part file's most by what one line can add to them.
pub fn obj_to_part(text: &[u8], job: &[u8], out: &mut [u8]) -> Result<usize, Refusal>
    ensures { Converts text.now job.now out.old out.new result }
{
    let mut numbers = [0u64; 16_449];
    let mut indices = [0u32; 4_098];
    let mut counts = [0usize; 4_098];
    let mut xs = [0.0f64; 16_384];
    let mut ys = [0.0f64; 16_384];
    let mut zs = [0.0f64; 16_384];
    let t = judge(
        text,
        &mut numbers,
        &mut indices,
        &mut counts,
        &mut xs,
        &mut ys,
        &mut zs,
    )?;
    size_refusal(t.corners, t.polygons, job.len(), out.len())?;
    Ok(write(
        text, job, out, t, &numbers, &indices, &counts, &mut xs, &mut ys, &mut zs,
    ))
}
