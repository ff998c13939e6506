// The nearest polygon that a ray strikes in a part whose body stands in the scratch: a part without a tree is scanned, any other is walked.
ghost use Rattle.std.specs.Prelude.{◌≡◌};
ghost use Rattle.file_part.specs.Part.{part_of};
ghost use Rattle.scratch.specs.Standing.{Standing};
ghost use Rattle.wall_ray.specs.Nearest.{hit_of, is_nothing_of, is_open, Answer};

use crate::walk::{is_clear, nearest};
use math::Vec3;
use scratch::regions::{Regions, SCANNED};
use wall_ray::scan::{misses, scan};
use wall_ray::strike::{Hit, Ray};

// The hit of smallest t, of the lowest number on equal t.
pub fn raycast(file: &[u8], words: &[u32], reals: &[f64], at: Regions, ray: Ray) -> Option<Hit>
    requires { Standing file.now at words.now reals.now }
    ensures { Answer (part_of file.now) ray result }
{
    if at.polygons <= SCANNED {
        return scan(file, &reals[0..at.areas], ray);
    }
    nearest(
        file,
        &reals[0..at.areas],
        &reals[at.boxes..at.falling],
        &words[at.tree..at.sides],
        ray,
    )
}

// Whether the ray strikes nothing.
fn is_free(file: &[u8], words: &[u32], reals: &[f64], at: Regions, ray: Ray) -> bool
    requires { Standing file.now at words.now reals.now }
    ensures { result ≡ is_nothing_of (hit_of (part_of file.now) ray) }
{
    if at.polygons <= SCANNED {
        return misses(file, &reals[0..at.areas], ray);
    }
    is_clear(
        file,
        &reals[0..at.areas],
        &reals[at.boxes..at.falling],
        &words[at.tree..at.sides],
        ray,
    )
}

// Whether a straight line from p along dir leaves the part without striking it.
pub fn open_towards(
    file: &[u8],
    words: &[u32],
    reals: &[f64],
    at: Regions,
    p: Vec3,
    dir: Vec3,
) -> bool
    requires { Standing file.now at words.now reals.now }
    ensures { result ≡ is_open (part_of file.now) p dir }
{
    let ray = Ray {
        origin: p.add(dir.mul(1e-4)),
        dir,
    };
    is_free(file, words, reals, at, ray)
}
