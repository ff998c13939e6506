// Flat faces: whether a face is one, and its normal.
#![tactic(auto)]

ghost use Rattle.std.specs.Prelude.{◌≡◌, ◌<◌};
ghost use Rattle.file_part.specs.Part.{part_of};
ghost use Rattle.solid_faces.specs.Faces.{faces_of};
ghost use Rattle.scratch.specs.Standing.{Standing};
ghost use Rattle.solid_flat.specs.Flat.{is_plane, is_flat_face, face_normal};

use file_part::read::{SurfaceKind, entry_at, surface};
use list_cells::cell;
use math::Vec3;
use scratch::regions::Regions;
use wall_ray::strike::plane_at;

pub fn is_plane(surface: SurfaceKind) -> bool
    ensures { result ≡ is_plane surface }
{
    matches!(surface, SurfaceKind::Plane)
}

// Whether face f is flat, by the surface of its first polygon.
pub fn is_flat(file: &[u8], words: &[u32], reals: &[f64], at: Regions, f: usize) -> bool
    requires fact_1 { Standing file.now at words.now reals.now }
    requires fact_2 { f < faces_of (part_of file.now) }
    ensures { result ≡ is_flat_face (part_of file.now) f }
{
    let firsts = at.firsts;
    let q = cell(words, firsts + f);
    is_plane(surface(file, entry_at(at.vertices, q)))
}

// The normal of face f, by its first polygon.
pub fn face_normal(file: &[u8], words: &[u32], reals: &[f64], at: Regions, f: usize) -> Vec3
    requires fact_1 { Standing file.now at words.now reals.now }
    requires fact_2 { f < faces_of (part_of file.now) }
    ensures { result ≡ face_normal (part_of file.now) f }
{
    let firsts = at.firsts;
    let q = cell(words, firsts + f);
    let start: usize = 0;
    let areas = at.areas;
    let plane = plane_at(&reals[start..areas], q);
    plane.normal
}
