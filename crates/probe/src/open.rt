// Whether each of many lines leaves a part without striking it (dfm.rs's `open_towards`).
ghost use Rattle.probe.specs.Open.{RaysOpen};

use crate::rays::ray_at;
use refusal::Refusal;
use scratch::body::put_body;
use scratch::regions::{Regions, Stages};
use scratch::verdict::body_refusal;
use wall_tree::raycast::open_towards;

// Puts the body of a part into the lent scratch, and for each ray 1 where the line from its origin along its direction leaves the part, else 0, and
// answers 0; or answers the refusal from 1 to 10 and changes nothing.
#[unsafe(no_mangle)]
pub extern "C" fn gablemadder_open_towards(
    file: &[u8],
    words: &mut [u32],
    reals: &mut [f64],
    rays: &[f64],
    cells: &mut [u32],
) -> u32
    ensures { RaysOpen file.now words.old words.new reals.old reals.new rays.now
        cells.old cells.new result }
{
    if let Err(refusal) = body_refusal(file, words.len(), reals.len()) {
        return refusal.number();
    }
    let n = rays.len() / 6;
    if cells.len() < n {
        return Refusal::TooLittleScratch.number();
    }
    let at = Regions::of(
        file,
        Stages {
            segments: true,
            bodies: true,
        },
    );
    put_body(file, words, reals, at);
    for k in 0..n {
        let ray = ray_at(rays, k);
        cells[k] = open_towards(file, words, reals, at, ray.origin, ray.dir) as u32;
    }
    0
}
