// One shared segment: its two polygons, its middle, its length, and whether it is a corner.
ghost use Rattle.std.specs.Prelude.{◌≡◌, true, ◌<◌};
ghost use Rattle.file_part.specs.Layout.{vertex_count_of, polygon_count_of};
ghost use Rattle.file_part.specs.Part.{part_of};
ghost use Rattle.solid_faces.specs.Faces.{Checked};
ghost use Rattle.solid_segments.specs.Sides.{to_of};
ghost use Rattle.solid_edges.specs.Edges.{is_edge_of};
ghost use Rattle.scratch.specs.Standing.{Standing};
ghost use Rattle.rule_corners.specs.Corners.{is_plane, on_plane, mid_of, is_concave, is_corner, segment_length};
ghost use Rattle.rule_corners.specs.Work.{SidesOf, FoundIs};

use file_part::read::{SurfaceKind, entry_at, surface, vertex};
use math::Vec3;
use scratch::regions::Regions;
use solid_edges::edge::{edge_at, end_at, owner_at, pair_at};
use wall_ray::strike::plane_at;
use wall_samples::cast::centroid_of;

// The two polygons of a segment: that of its first side, and that of its second.
#[derive(Clone, Copy)]
pub struct Sides {
    pub polygon: usize,
    pub beyond: usize,
}

#[tactic(auto, unfolding(crate::specs::Corners::is_plane))]
fn is_plane(surface: SurfaceKind) -> bool
    ensures { result ≡ is_plane surface }
{
    matches!(surface, SurfaceKind::Plane)
}

// Whether polygon p of a file with v vertices lies on a plane, by its own surface.
fn on_plane(file: &[u8], v: usize, p: usize) -> bool
    requires fact_1 { Checked file.now }
    requires fact_2 { v ≡ vertex_count_of file.now }
    requires fact_3 { p < polygon_count_of file.now }
    ensures { result ≡ on_plane (part_of file.now) p }
{
    is_plane(surface(file, entry_at(v, p)))
}

// The polygons of segment s, which is one of an edge.
pub fn sides_of(file: &[u8], words: &[u32], reals: &[f64], at: Regions, s: usize) -> Sides
    requires fact_1 { Standing file.now at words.now reals.now }
    requires fact_2 { s < at.vertices }
    requires fact_3 { is_edge_of (part_of file.now) s ≡ true }
    requires fact_4 { at.segments ≡ true }
    ensures { SidesOf (part_of file.now) s result }
{
    let sides = at.sides;
    let items = at.items;
    let faces = at.faces;
    let end = at.readings;
    let pair = pair_at(file, &words[sides..items], &words[faces..end], s);
    Sides {
        polygon: owner_at(file, &words[sides..items], &words[faces..end], s),
        beyond: owner_at(file, &words[sides..items], &words[faces..end], pair - 1),
    }
}

// The vertex where side s ends.
fn side_end(file: &[u8], words: &[u32], reals: &[f64], at: Regions, s: usize) -> usize
    requires fact_1 { Standing file.now at words.now reals.now }
    requires fact_2 { s < at.vertices }
    requires fact_3 { at.segments ≡ true }
    ensures fact_1 { result ≡ to_of (part_of file.now) s }
    ensures fact_2 { result < at.vertices }
{
    let sides = at.sides;
    let items = at.items;
    let faces = at.faces;
    let end = at.readings;
    end_at(file, &words[sides..items], &words[faces..end], s)
}

// The middle of segment s.
pub fn mid_of(file: &[u8], words: &[u32], reals: &[f64], at: Regions, s: usize) -> Vec3
    requires fact_1 { Standing file.now at words.now reals.now }
    requires fact_2 { s < at.vertices }
    requires fact_3 { at.segments ≡ true }
    ensures { result ≡ mid_of (part_of file.now) s }
{
    let to = side_end(file, words, reals, at, s);
    vertex(file, s).add(vertex(file, to)).mul(0.5)
}

// Its length.
pub fn segment_length(file: &[u8], words: &[u32], reals: &[f64], at: Regions, s: usize) -> f64
    requires fact_1 { Standing file.now at words.now reals.now }
    requires fact_2 { s < at.vertices }
    requires fact_3 { at.segments ≡ true }
    ensures { result ≡ segment_length (part_of file.now) s }
{
    let to = side_end(file, words, reals, at, s);
    vertex(file, to).sub(vertex(file, s)).length()
}

// Whether the part is concave between two polygons that meet at `mid`.
fn is_concave(file: &[u8], words: &[u32], reals: &[f64], at: Regions, of: Sides, mid: Vec3) -> bool
    requires fact_1 { Standing file.now at words.now reals.now }
    requires fact_2 { of.polygon < at.polygons }
    requires fact_3 { of.beyond < at.polygons }
    ensures { result ≡ is_concave (part_of file.now) of.polygon of.beyond mid }
{
    let start: usize = 0;
    let areas = at.areas;
    let near = plane_at(&reals[start..areas], of.polygon);
    let far = plane_at(&reals[start..areas], of.beyond);
    if !(near.normal.dot(far.normal) < 0.99) {
        return false;
    }
    let c = centroid_of(file, at.vertices, of.beyond);
    1e-9 < c.sub(mid).dot(near.normal)
}

// Whether segment s, which is one of an edge, is a corner.
fn is_inside(file: &[u8], words: &[u32], reals: &[f64], at: Regions, s: usize) -> bool
    requires fact_1 { Standing file.now at words.now reals.now }
    requires fact_2 { s < at.vertices }
    requires fact_3 { is_edge_of (part_of file.now) s ≡ true }
    requires fact_4 { at.segments ≡ true }
    ensures { result ≡ is_corner (part_of file.now) s }
{
    let of = sides_of(file, words, reals, at, s);
    if !on_plane(file, at.vertices, of.polygon) {
        return false;
    }
    if !on_plane(file, at.vertices, of.beyond) {
        return false;
    }
    is_concave(
        file,
        words,
        reals,
        at,
        of,
        mid_of(file, words, reals, at, s),
    )
}

// The two faces of a corner: that of a segment's first side, and that of its second.
#[derive(Clone, Copy)]
pub struct Between {
    pub near: usize,
    pub far: usize,
}

// Those of segment s, where it is a corner.
pub fn find(file: &[u8], words: &[u32], reals: &[f64], at: Regions, s: usize) -> Option<Between>
    requires fact_1 { Standing file.now at words.now reals.now }
    requires fact_2 { s < at.vertices }
    requires fact_3 { at.segments ≡ true }
    ensures { FoundIs (part_of file.now) s result }
{
    let sides = at.sides;
    let items = at.items;
    let faces = at.faces;
    let end = at.readings;
    let e = edge_at(file, &words[sides..items], &words[faces..end], s)?;
    if !is_inside(file, words, reals, at, s) {
        return None;
    }
    Some(Between {
        near: e.near,
        far: e.beyond,
    })
}
