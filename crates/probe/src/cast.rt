// What each of many rays strikes first.
ghost use Rattle.probe.specs.Cast.{RaysCast};

use crate::rays::ray_at;
use refusal::Refusal;
use scratch::body::put_body;
use scratch::regions::{Regions, Stages};
use scratch::verdict::body_refusal;
use wall_ray::strike::{polygon_or, time_or_zero};
use wall_tree::raycast::raycast;

// Puts the body of a part into the lent scratch, and for each ray the polygon that it strikes and how far along, and answers 0; or answers the
// refusal from 1 to 10 and changes nothing.
#[unsafe(no_mangle)]
pub extern "C" fn gablemadder_raycast(
    file: &[u8],
    words: &mut [u32],
    reals: &mut [f64],
    rays: &[f64],
    polygons: &mut [u32],
    times: &mut [f64],
) -> u32
    ensures { RaysCast file.now words.old words.new reals.old reals.new rays.now
        polygons.old polygons.new times.old times.new result }
{
    if let Err(refusal) = body_refusal(file, words.len(), reals.len()) {
        return refusal.number();
    }
    let n = rays.len() / 6;
    if (polygons.len() < n) | (times.len() < n) {
        return Refusal::TooLittleScratch.number();
    }
    let at = Regions::of(
        file,
        Stages {
            segments: true,
            bodies: true,
        },
    );
    put_body(file, words, reals, at);
    for k in 0..n {
        let hit = raycast(file, words, reals, at, ray_at(rays, k));
        polygons[k] = polygon_or(hit, at.polygons) as u32;
        times[k] = time_or_zero(hit);
    }
    0
}
