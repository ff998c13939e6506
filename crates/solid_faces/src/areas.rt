// Areas and planes of the polygons, each computed once, and the areas of the faces.
ghost use Rattle.std.specs.Prelude.{◌≡◌, ◌+◌, ◌*◌, ◌≤◌, ◌<◌, length, get_or, set};
ghost use Rattle.std.specs.Float.{nan, binary64};
ghost use Rattle.std.specs.Float.Ieee.{add};
ghost use Rattle.solid_polygon.specs.file_part.specs.Layout.{polygon_count_of};
ghost use Rattle.solid_polygon.specs.file_part.specs.Part.{part_of};
ghost use Rattle.solid_faces.specs.Faces.{Checked};
ghost use Rattle.solid_faces.specs.Kept.{KeptAreas, KeptPlanes};
ghost use Rattle.solid_faces.specs.Work.{put_plane, plane_cells};

use solid_polygon::file_part::read::{
    entry_at, first_vertex, polygon_count, run_length, vertex_count,
};
use solid_polygon::polygon::{Plane, poly_area};

// The area of each polygon.
pub fn put_areas(file: &[u8], areas: &mut [f64])
    requires fact_1 { Checked file.now }
    requires fact_2 { length areas.old ≡ polygon_count_of file.now }
    ensures kept_areas { KeptAreas (part_of file.now) (polygon_count_of file.now) areas.new }
    ensures areas_len_unchanged { length areas.new ≡ length areas.old }
{
    let vertices = vertex_count(file);
    let polygons = polygon_count(file);
    for p in 0..polygons {
        let entry = entry_at(vertices, p);
        areas[p] = poly_area(file, first_vertex(file, entry), run_length(file, entry));
    }
}

// Adds an area to that of face f.
pub fn add_area(out: &mut [f64], f: usize, area: f64)
    requires { f < length out.old }
    ensures { out.new ≡ set out.old f (add binary64 (get_or out.old f nan) area) }
{
    out[f] += area;
}

fn put_plane(planes: &mut [f64], p: usize, plane: Plane)
    requires { 4 * p + 4 ≤ length planes.old }
    ensures { planes.new ≡ put_plane planes.old p plane }
{
    let at = 4 * p;
    planes[at] = plane.normal.x;
    planes[at + 1] = plane.normal.y;
    planes[at + 2] = plane.normal.z;
    planes[at + 3] = plane.w;
}

// The plane of each polygon: normal and w, four numbers from 4p on.
pub fn put_planes(file: &[u8], planes: &mut [f64])
    requires fact_1 { Checked file.now }
    requires fact_2 { length planes.old ≡ plane_cells (polygon_count_of file.now) }
    ensures kept_planes { KeptPlanes (part_of file.now) (polygon_count_of file.now) planes.new }
    ensures planes_len_unchanged { length planes.new ≡ length planes.old }
{
    let vertices = vertex_count(file);
    let polygons = polygon_count(file);
    for p in 0..polygons {
        let at = entry_at(vertices, p);
        put_plane(
            planes,
            p,
            Plane::new(file, first_vertex(file, at), run_length(file, at)),
        );
    }
}
