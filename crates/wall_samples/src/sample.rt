// A thickness reading as the rules read it.
ghost use Rattle.std.specs.Prelude.{◌≡◌, ◌<◌, length};
ghost use Rattle.file_part.specs.Part.{part_of};
ghost use Rattle.scratch.specs.Standing.{Standing};
ghost use Rattle.wall_samples.specs.Samples.{readings_of, sample_of};
ghost use Rattle.wall_samples.specs.Stored.{reading, Readings};

use crate::cast::centroid_of;
use math::Vec3;
use scratch::regions::Regions;
use wall_tree::wall_ray::strike::plane_at;

// Faces are told by their numbers. The ray starts at `point`, the centroid of a polygon of `face` with this area and normal.
#[derive(Clone, Copy)]
pub struct Sample {
    pub face: usize,
    pub hit: usize,
    pub thickness: f64,
    pub area: f64,
    pub point: Vec3,
    pub normal: Vec3,
}

// Reading k of a part whose readings stand in the scratch.
pub fn sample_at(file: &[u8], words: &[u32], reals: &[f64], at: Regions, k: usize) -> Sample
    requires standing { Standing file.now at words.now reals.now }
    requires readings_1 { Readings (part_of file.now) at words.now reals.now }
    requires readings_2 { k < length (readings_of (part_of file.now)) }
    ensures { result ≡ sample_of (part_of file.now) (reading (readings_of (part_of file.now)) k) }
{
    let q = words[at.readings + k] as usize;
    let hit = words[at.hits + k] as usize;
    let plane = plane_at(&reals[0..at.areas], q);
    Sample {
        face: words[at.faces + q] as usize,
        hit: words[at.faces + hit] as usize,
        thickness: reals[at.thickness + k],
        area: reals[at.weights + k],
        point: centroid_of(file, at.vertices, q),
        normal: plane.normal,
    }
}
