// The readings of a part: the u32 list has their number and two cells for each, the f64 list eight for each (specs/SampleList.antt).
ghost use Rattle.std.specs.Prelude.{◌+◌, ◌*◌, ◌≤◌, ◌<◌, length};
ghost use Rattle.std.specs.Float.{nan};
ghost use Rattle.probe.specs.SampleList.{face_cells_of, number_cells_of, SamplesListed};
ghost use Rattle.probe.specs.Work.{Row};

use refusal::Refusal;
use scratch::body::put_body;
use scratch::regions::{Regions, Stages};
use scratch::verdict::body_refusal;
use wall_samples::sample::{Sample, sample_at};
use wall_samples::store::put_samples;

// Reading x as number k of both lists.
fn put_sample(faces: &mut [u32], numbers: &mut [f64], k: usize, x: Sample)
    requires fact_1 { 2 * k + 3 ≤ length faces.old }
    requires fact_2 { 8 * k + 8 ≤ length numbers.old }
    requires fact_3 { x.face < 4294967296 }
    requires fact_4 { x.hit < 4294967296 }
    ensures fact_1 { Row 0 (2 * k + 1) (face_cells_of x) faces.old faces.new }
    ensures fact_2 { Row nan (8 * k) (number_cells_of x) numbers.old numbers.new }
{
    faces[2 * k + 1] = x.face as u32;
    faces[2 * k + 2] = x.hit as u32;
    let point = x.point;
    let normal = x.normal;
    let at = 8 * k;
    numbers[at] = x.thickness;
    numbers[at + 1] = x.area;
    numbers[at + 2] = point.x;
    numbers[at + 3] = point.y;
    numbers[at + 4] = point.z;
    numbers[at + 5] = normal.x;
    numbers[at + 6] = normal.y;
    numbers[at + 7] = normal.z;
}

// The readings of a part in both lists, after its body and its readings have been put into the scratch; or the refusal from 1 to 10, and nothing
// changed.
#[unsafe(no_mangle)]
pub extern "C" fn gablemadder_sample_list(
    file: &[u8],
    words: &mut [u32],
    reals: &mut [f64],
    faces: &mut [u32],
    numbers: &mut [f64],
) -> u32
    ensures { SamplesListed file.now words.old words.new reals.old reals.new
        faces.old faces.new numbers.old numbers.new result }
{
    if let Err(refusal) = body_refusal(file, words.len(), reals.len()) {
        return refusal.number();
    }
    let at = Regions::of(
        file,
        Stages {
            segments: true,
            bodies: true,
        },
    );
    let most = at.polygons;
    if (faces.len() < 2 * most + 1) | (numbers.len() < 8 * most) {
        return Refusal::TooLittleScratch.number();
    }
    let count = put_body(file, words, reals, at);
    let n = put_samples(file, words, reals, at, count);
    for k in 0..n {
        put_sample(faces, numbers, k, sample_at(file, words, reals, at, k));
    }
    faces[0] = n as u32;
    0
}
