// The volumes of bodies.
ghost use Rattle.std.specs.Prelude.{◌≡◌, ◌+◌, ◌-◌, ◌*◌, ◌≤◌, length};
ghost use Rattle.file_field.specs.Field.{vec_at_of};
ghost use Rattle.file_part.specs.Layout.{polygon_count_of};
ghost use Rattle.file_part.specs.Part.{first_at, count_at_of, part_of};
ghost use Rattle.file_ok.specs.Work.{Readable};
ghost use Rattle.solid_bodies.specs.Body.{Labels};
ghost use Rattle.solid_volumes.specs.Volume.{pyramid, fan, Volumes};

use file_part::read::{entry_at, first_vertex, polygon_count, run_length, vertex, vertex_count};
use list_cells::fill;
use math::Vec3;

// The signed volume over a triangle, with its tip at zero.
fn pyramid_volume(a: Vec3, b: Vec3, c: Vec3) -> f64
    ensures { result ≡ pyramid a b c }
{
    a.dot(b.cross(c)) / 6.0
}

// The sum so far, with the triangles of a polygon's fan added one by one.
fn fan_volume(file: &[u8], at: usize, start: f64) -> f64
    requires fact_1 { at + 80 ≤ length file.now }
    requires fact_2 { 3 ≤ count_at_of file.now at }
    requires fact_3 { 24 * (first_at file.now at + count_at_of file.now at) ≤ length file.now }
    ensures { result ≡ fan (λ i. vec_at_of file.now (24 * i)) (first_at file.now at) start (count_at_of file.now at - 2) }
{
    let first = first_vertex(file, at);
    let tip = vertex(file, first);
    let mut sum = start;
    for k in 0..run_length(file, at) - 2 {
        sum += pyramid_volume(
            tip,
            vertex(file, first + k + 1),
            vertex(file, first + k + 2),
        );
    }
    sum
}

// The volume of each body, at the place of the number that it goes by. What the cells held before plays no part.
pub fn volumes(file: &[u8], labels: &[u32], volume: &mut [f64])
    requires fact_1 { Readable file.now }
    requires fact_2 { Labels (part_of file.now) labels.now }
    requires fact_3 { length volume.old ≡ polygon_count_of file.now }
    ensures { Volumes (part_of file.now) volume.new }
{
    fill(volume, 0.0);
    let vertices = vertex_count(file);
    let polygons = polygon_count(file);
    for p in 0..polygons {
        let b = labels[p] as usize;
        volume[b] = fan_volume(file, entry_at(vertices, p), volume[b]);
    }
}
