// Vertices, polygon entries and counts of a part file. A place `at` is that of a polygon's entry.
ghost use Rattle.std.specs.Prelude.{◌≡◌, ◌+◌, ◌*◌, ◌≤◌, ◌<◌, length};
ghost use Rattle.file_job.specs.file_field.specs.Field.{vec_at_of};
ghost use Rattle.file_part.specs.Layout.{vertex_count_of, polygon_count_of, entry_at};
ghost use Rattle.file_part.specs.Part.{face_at, surface_at, first_at, count_at_of};

use file_job::file_field::read::{f64_at, u32_at, vec_at};
use file_job::math::Vec3;

// The name of a face: the feature that made it and its number there. Ids are in order by feature, then by index.
#[derive(Clone, Copy, Debug, PartialEq, Eq, PartialOrd, Ord)]
pub struct FaceId {
    pub feature: u32,
    pub index: u32,
}

#[derive(Clone, Copy)]
pub enum SurfaceKind {
    Plane,
    Cylinder {
        axis_origin: Vec3,
        axis_dir: Vec3,
        radius: f64,
    },
    Revolved {
        axis_origin: Vec3,
        axis_dir: Vec3,
    },
    Other,
}

// V, from the trailer.
// One field's place each, with a contract of its own.
pub fn vertex_count(file: &[u8]) -> usize
    requires { 16 ≤ length file.now }
    ensures { result ≡ vertex_count_of file.now }
{
    u32_at(file, file.len() - 12) as usize
}

// P, from the trailer.
pub fn polygon_count(file: &[u8]) -> usize
    requires { 16 ≤ length file.now }
    ensures { result ≡ polygon_count_of file.now }
{
    u32_at(file, file.len() - 8) as usize
}

// Where the entry of polygon p begins, after v vertices.
pub fn entry_at(v: usize, p: usize) -> usize
    requires { (v ≤ 16384) × (p ≤ 4096) }
    ensures { result ≡ entry_at v p }
{
    24 * v + 80 * p
}

// Vertex i.
pub fn vertex(file: &[u8], i: usize) -> Vec3
    requires { 24 * i + 24 ≤ length file.now }
    ensures { result ≡ vec_at_of file.now (24 * i) }
{
    vec_at(file, 24 * i)
}

// The face that a polygon is of.
pub fn face_id(file: &[u8], at: usize) -> FaceId
    requires { at + 80 ≤ length file.now }
    ensures { result ≡ face_at file.now at }
{
    FaceId {
        feature: u32_at(file, at),
        index: u32_at(file, at + 4),
    }
}

// The first vertex of a polygon's run.
pub fn first_vertex(file: &[u8], at: usize) -> usize
    requires { at + 80 ≤ length file.now }
    ensures { result ≡ first_at file.now at }
{
    u32_at(file, at + 8) as usize
}

// How many vertices a polygon's run has.
pub fn run_length(file: &[u8], at: usize) -> usize
    requires { at + 80 ≤ length file.now }
    ensures fact_1 { result ≡ count_at_of file.now at }
    ensures fact_2 { result < 4294967296 }
{
    u32_at(file, at + 12) as usize
}

// The surface that a polygon lies on.
pub fn surface(file: &[u8], at: usize) -> SurfaceKind
    requires { at + 80 ≤ length file.now }
    ensures { result ≡ surface_at file.now at }
{
    match u32_at(file, at + 16) {
        0 => SurfaceKind::Plane,
        1 => SurfaceKind::Cylinder {
            axis_origin: vec_at(file, at + 24),
            axis_dir: vec_at(file, at + 48),
            radius: f64_at(file, at + 72),
        },
        2 => SurfaceKind::Revolved {
            axis_origin: vec_at(file, at + 24),
            axis_dir: vec_at(file, at + 48),
        },
        _ => SurfaceKind::Other,
    }
}
