// The corners of a part by their pairs of faces, pairs by rising ids: they are sorted once, and the groups are walked.
ghost use Rattle.std.specs.Prelude.{◌≡◌, true, ◌≤◌, ◌<◌};
ghost use Rattle.list_laws.specs.Region.{part};
ghost use Rattle.math.specs.Vector.{zero};
ghost use Rattle.file_part.specs.Part.{part_of};
ghost use Rattle.solid_faces.specs.Faces.{faces_of};
ghost use Rattle.solid_edges.specs.Edges.{is_edge_of};
ghost use Rattle.scratch.specs.Standing.{Standing};
ghost use Rattle.solid_ranks.specs.Kept.{Ranked};
ghost use Rattle.rule_corners.specs.Corners.{corner_count, length_from_of, corner_of_word};
ghost use Rattle.rule_corners.specs.Work.{Counted, corner_order, CornersOrdered, CornersPut, NextCornerIs, Normals, CornerPut, AllPut, SideAt};

use crate::segment::{find, mid_of, segment_length, sides_of};
use list_cells::cell;
use list_groups::{group_end, sort_items};
use math::Vec3;
use scratch::regions::Regions;
use solid_ids::face_before;
use solid_pairs::pair_of;
use wall_ray::strike::plane_at;

// How many faces and corners a part has.
#[derive(Clone, Copy)]
pub struct Counts {
    pub faces: usize,
    pub corners: usize,
}

// The turn of a segment: the number of faces, the segment, and how many corners come before it.
#[derive(Clone, Copy)]
struct Turn {
    faces: usize,
    side: usize,
    before: usize,
}

// Keeps a segment and the key of its pair of faces, where it is a corner. How many there are then.
fn put_corner(file: &[u8], words: &mut [u32], reals: &mut [f64], at: Regions, turn: Turn) -> usize
    requires standing_1 { Standing file.now at words.old reals.old }
    requires standing_2 { Ranked (part_of file.now) at words.old }
    requires standing_3 { turn.faces ≡ faces_of (part_of file.now) }
    requires side_lt_vertices_1 { turn.side < at.vertices }
    requires side_lt_vertices_2 { turn.before ≤ turn.side }
    requires side_lt_vertices_3 { at.segments ≡ true }
    ensures { CornerPut (part_of file.now) at turn.side turn.before words.old words.new reals.old reals.new result }
{
    let s = turn.side;
    let m = turn.before;
    let Some(between) = find(file, words, reals, at, s) else {
        return m;
    };
    let pair = pair_of(file, words, at, turn.faces, between.near, between.far);
    words[at.items + m] = s as u32;
    reals[at.directions + m] = pair.key;
    m + 1
}

// All corners, in the order of the segments. How many there are.
fn put_corners(file: &[u8], words: &mut [u32], reals: &mut [f64], at: Regions, n: usize) -> usize
    requires fact_1 { Standing file.now at words.old reals.old }
    requires fact_2 { Ranked (part_of file.now) at words.old }
    requires fact_3 { n ≡ faces_of (part_of file.now) }
    requires fact_4 { at.segments ≡ true }
    ensures { AllPut file.now at words.old words.new reals.old reals.new result }
{
    let mut m = 0;
    for s in 0..at.vertices {
        let turn = Turn {
            faces: n,
            side: s,
            before: m,
        };
        m = put_corner(file, words, reals, at, turn);
    }
    m
}

// Finds the corners of a part of n faces and sorts them by their pairs of faces, for `next_corner`. How many there are.
pub fn order_corners(
    file: &[u8],
    words: &mut [u32],
    reals: &mut [f64],
    at: Regions,
    n: usize,
) -> usize
    requires fact_1 { Standing file.now at words.old reals.old }
    requires fact_2 { Ranked (part_of file.now) at words.old }
    requires fact_3 { n ≡ faces_of (part_of file.now) }
    requires fact_4 { at.segments ≡ true }
    ensures { CornersPut file.now at words.old words.new reals.old reals.new result }
{
    let m = put_corners(file, words, reals, at, n);
    let sorted = at.sorted;
    let end = at.chain;
    let keys = at.directions;
    let keys_end = at.free;
    sort_items(&reals[keys..keys_end], &mut words[sorted..end], m);
    m
}

// The side of the corner at place j of the order.
fn side_at(file: &[u8], words: &[u32], reals: &[f64], at: Regions, j: usize) -> usize
    requires fact_1 { CornersOrdered file.now at words.now reals.now }
    requires fact_2 { j < corner_count (part_of file.now) }
    ensures { SideAt (part_of file.now) at words.now j result }
{
    let sorted = at.sorted;
    let items = at.items;
    cell(words, items + cell(words, sorted + j))
}

// Two faces with corners between them, the lower id first, and the place in the sorted corners where the next two start.
#[derive(Clone, Copy)]
pub struct NextCorner {
    pub first: usize,
    pub second: usize,
    pub end: usize,
}

// The two faces whose corners start at place i of the order.
pub fn next_corner(
    file: &[u8],
    words: &[u32],
    reals: &[f64],
    at: Regions,
    counts: Counts,
    i: usize,
) -> NextCorner
    requires fact_1 { CornersOrdered file.now at words.now reals.now }
    requires fact_2 { Counted (part_of file.now) counts }
    requires fact_3 { i < counts.corners }
    ensures { NextCornerIs (part_of file.now) at words.now reals.now i result }
{
    let sorted = at.sorted;
    let sorted_end = at.chain;
    let keys = at.directions;
    let keys_end = at.free;
    let m = counts.corners;
    let end = group_end(&reals[keys..keys_end], &words[sorted..sorted_end], m, i);
    let of = sides_of(file, words, reals, at, side_at(file, words, reals, at, i));
    let faces = at.faces;
    let near = cell(words, faces + of.polygon);
    let far = cell(words, faces + of.beyond);
    let pair = pair_of(file, words, at, counts.faces, near, far);
    NextCorner {
        first: pair.first,
        second: pair.second,
        end,
    }
}

// The length of the corners from place i to before place e of the order.
fn total_length(file: &[u8], words: &[u32], reals: &[f64], at: Regions, i: usize, e: usize) -> f64
    requires fact_1 { CornersOrdered file.now at words.now reals.now }
    requires fact_2 { i ≤ e }
    requires fact_3 { e ≤ corner_count (part_of file.now) }
    ensures { result ≡ length_from_of (part_of file.now) zero (part i e (corner_order at words.now)) }
{
    let mut x = 0.0;
    for j in i..e {
        let s = side_at(file, words, reals, at, j);
        x += segment_length(file, words, reals, at, s);
    }
    x
}

// The normals of a segment's two polygons, that of the face of the lower id first.
#[derive(Clone, Copy)]
struct Two {
    low: Vec3,
    high: Vec3,
}

// Those of segment s, which is one of an edge.
fn normals_of(file: &[u8], words: &[u32], reals: &[f64], at: Regions, s: usize) -> Two
    requires fact_1 { Standing file.now at words.now reals.now }
    requires fact_2 { s < at.vertices }
    requires fact_3 { is_edge_of (part_of file.now) s ≡ true }
    requires fact_4 { at.segments ≡ true }
    ensures { Normals (part_of file.now) s result }
{
    let of = sides_of(file, words, reals, at, s);
    let faces = at.faces;
    let end = at.readings;
    let start: usize = 0;
    let areas = at.areas;
    let near = plane_at(&reals[start..areas], of.polygon);
    let far = plane_at(&reals[start..areas], of.beyond);
    let near_face = cell(words, faces + of.polygon);
    let far_face = cell(words, faces + of.beyond);
    let near_normal = near.normal;
    let far_normal = far.normal;
    if face_before(file, &words[faces..end], far_face, near_face) {
        return Two {
            low: far_normal,
            high: near_normal,
        };
    }
    Two {
        low: near_normal,
        high: far_normal,
    }
}

// The length of the corners between one pair of faces, the middle of the last, and the normals of the first, that of the lower id first.
#[derive(Clone, Copy)]
pub struct Corner {
    pub length: f64,
    pub mid: Vec3,
    pub low: Vec3,
    pub high: Vec3,
}

// What is kept of the corners from place i to before place e of the order.
pub fn corner_of(
    file: &[u8],
    words: &[u32],
    reals: &[f64],
    at: Regions,
    i: usize,
    e: usize,
) -> Corner
    requires fact_1 { CornersOrdered file.now at words.now reals.now }
    requires fact_2 { i < e }
    requires fact_3 { e ≤ corner_count (part_of file.now) }
    ensures { result ≡ corner_of_word (part_of file.now) (part i e (corner_order at words.now)) }
{
    let length = total_length(file, words, reals, at, i, e);
    let mid = mid_of(
        file,
        words,
        reals,
        at,
        side_at(file, words, reals, at, e - 1),
    );
    let two = normals_of(file, words, reals, at, side_at(file, words, reals, at, i));
    Corner {
        length,
        mid,
        low: two.low,
        high: two.high,
    }
}
