// The rounds of a part, kept in the scratch.
ghost use Rattle.std.specs.Prelude.{◌≡◌, true, ◌+◌, ◌*◌, ◌≤◌, ◌<◌, length};
ghost use Rattle.std.specs.Float.Ieee.{lt};
ghost use Rattle.std.specs.Float.{nan};
ghost use Rattle.list_laws.specs.Region.{Outside};
ghost use Rattle.math.specs.Vector as vector;
ghost use Rattle.file_part.specs.Part.{part_of};
ghost use Rattle.file_ok.specs.Work.{Readable};
ghost use Rattle.solid_faces.specs.Faces.{is_new, face_number, faces_of};
ghost use Rattle.solid_faces.specs.Kept.{Chain, KeptPlanes, KeptAreas};
ghost use Rattle.scratch.specs.Standing.{Standing};
ghost use Rattle.round_frame.specs.Frame.{measure_of};
ghost use Rattle.round_frame.specs.Work.{Central, put_measure_of};
ghost use Rattle.round_frame.specs.Polygons.{extent_to, votes_to};
ghost use Rattle.round_all.specs.Round.{face_surface, origin_of, radius_of, is_round, round_of};
ghost use Rattle.round_all.specs.Kept.{Rounds};
ghost use Rattle.round_all.specs.Work.{CylinderPut, kind_number, kind_of, FacePut, StepPut};

use file_part::read::{SurfaceKind, entry_at, surface};
use math::Vec3;
use round_frame::bore::is_bore;
use round_frame::extent::face_extent;
use round_frame::frame::Frame;
use round_frame::measure::{Measure, measure_at, put_measure};
use round_frame::votes::face_votes;
use scratch::regions::Regions;

// What a cylinder is: its material is inside; or outside, and its vertices do not go round; or outside, and they do.
#[derive(Clone, Copy, Debug, PartialEq, Eq)]
enum RoundKind {
    Convex,
    Concave,
    Hole,
}

// A face whose surface is a cylinder.
#[derive(Clone, Copy)]
pub struct Round {
    pub face: usize,
    pub origin: Vec3,
    pub axis: Vec3,
    pub radius: f64,
    pub concave: bool,
    pub hole: bool,
    pub length: f64,
    pub centre: Vec3,
}

// Keeps axis, length and centre of face f, which begins with polygon `first`.
fn put_extent(file: &[u8], chain: &[u32], out: &mut [f64], f: usize, first: usize, frame: Frame)
    requires readable_1 { Readable file.now }
    requires readable_2 { Chain (part_of file.now) chain.now }
    requires readable_3 { 7 * f + 7 ≤ length out.old }
    requires first_bound_1 { first < (part_of file.now).polygons }
    requires first_bound_2 { is_new (part_of file.now) first ≡ true }
    requires first_bound_3 { face_number (part_of file.now) first ≡ f }
    ensures { out.new ≡ put_measure_of out.old f (measure_of frame (extent_to (part_of file.now) f frame (part_of file.now).polygons)) }
{
    let e = face_extent(file, chain, first, frame);
    put_measure(out, f, Measure::new(frame, e));
}

// Whether the material is outside the cylinder, of the face that begins with polygon `first`.
fn is_concave(
    file: &[u8],
    chain: &[u32],
    planes: &[f64],
    areas: &[f64],
    first: usize,
    frame: Frame,
) -> bool
    requires readable_1 { Readable file.now }
    requires readable_2 { Chain (part_of file.now) chain.now }
    requires first_bound_1 { first < (part_of file.now).polygons }
    requires first_bound_2 { is_new (part_of file.now) first ≡ true }
    requires kept_planes_1 { KeptPlanes (part_of file.now) (part_of file.now).polygons planes.now }
    requires kept_planes_2 { KeptAreas (part_of file.now) (part_of file.now).polygons areas.now }
    ensures { result ≡ lt (votes_to (part_of file.now) (face_number (part_of file.now) first) frame (part_of file.now).polygons) vector.zero }
{
    face_votes(file, chain, planes, areas, first, frame) < 0.0
}

// Keeps what is to be kept of a cylinder, face f. What it is.
fn put_cylinder(
    file: &[u8],
    words: &[u32],
    reals: &mut [f64],
    at: Regions,
    f: usize,
    frame: Frame,
) -> RoundKind
    requires fact_1 { Standing file.now at words.now reals.old }
    requires fact_2 { f < faces_of (part_of file.now) }
    requires fact_3 { Central frame }
    ensures { CylinderPut (part_of file.now) at f frame reals.old reals.new result }
{
    let first = words[at.firsts + f] as usize;
    let chain = &words[at.chain..at.faces];
    put_extent(
        file,
        chain,
        &mut reals[at.rounds..at.directions],
        f,
        first,
        frame,
    );
    if !is_concave(
        file,
        chain,
        &reals[0..at.areas],
        &reals[at.areas..at.totals],
        first,
        frame,
    ) {
        return RoundKind::Convex;
    }
    if is_bore(
        file,
        chain,
        &mut reals[at.directions..at.free],
        first,
        frame,
    ) {
        return RoundKind::Hole;
    }
    RoundKind::Concave
}

// Keeps what is to be kept of face f with its surface. What it is as a round, where it is one.
fn put_face(
    file: &[u8],
    words: &[u32],
    reals: &mut [f64],
    at: Regions,
    f: usize,
    surface: SurfaceKind,
) -> Option<RoundKind>
    requires fact_1 { Standing file.now at words.now reals.old }
    requires fact_2 { f < faces_of (part_of file.now) }
    requires fact_3 { surface ≡ face_surface (part_of file.now) f }
    ensures { FacePut (part_of file.now) at f reals.old reals.new result }
{
    match surface {
        SurfaceKind::Cylinder {
            axis_origin,
            axis_dir,
            ..
        } => {
            let frame = Frame::new(axis_origin, axis_dir);
            Some(put_cylinder(file, words, reals, at, f, frame))
        }
        _ => None,
    }
}

// The number that the scratch keeps for a face.
fn kind_number(kind: Option<RoundKind>) -> u32
    ensures { result ≡ kind_number kind }
{
    match kind {
        None => 0,
        Some(RoundKind::Convex) => 1,
        Some(RoundKind::Concave) => 2,
        Some(RoundKind::Hole) => 3,
    }
}

// The kind that such a number, but for 0, stands for.
fn kind_of(number: u32) -> RoundKind
    ensures { result ≡ kind_of number }
{
    match number {
        3 => RoundKind::Hole,
        2 => RoundKind::Concave,
        _ => RoundKind::Convex,
    }
}

// Face f.
fn put_round(file: &[u8], words: &mut [u32], reals: &mut [f64], at: Regions, f: usize)
    requires fact_1 { Standing file.now at words.old reals.old }
    requires fact_2 { f < faces_of (part_of file.now) }
    ensures { StepPut (part_of file.now) at f words.old words.new reals.old reals.new }
{
    let q = words[at.firsts + f] as usize;
    let surface = surface(file, entry_at(at.vertices, q));
    let kind = put_face(file, &words[..], reals, at, f, surface);
    words[at.kinds + f] = kind_number(kind);
}

// The rounds of a part of n faces whose body stands in the scratch.
pub fn put_rounds(file: &[u8], words: &mut [u32], reals: &mut [f64], at: Regions, n: usize)
    requires fact_1 { Standing file.now at words.old reals.old }
    requires fact_2 { n ≡ faces_of (part_of file.now) }
    ensures rounds_1 { Rounds (part_of file.now) at words.new reals.new }
    ensures rounds_2 { Standing file.now at words.new reals.new }
    ensures outside_1 { Outside 0 at.kinds at.ranks words.old words.new }
    ensures outside_2 { Outside nan at.rounds at.free reals.old reals.new }
{
    for f in 0..n {
        put_round(file, words, reals, at, f);
    }
}

// The origin of a cylinder.
fn origin(surface: SurfaceKind) -> Vec3
    ensures { result ≡ origin_of surface }
{
    match surface {
        SurfaceKind::Cylinder { axis_origin, .. } => axis_origin,
        _ => Vec3::ZERO,
    }
}

// The radius of a cylinder.
fn radius(surface: SurfaceKind) -> f64
    ensures { result ≡ radius_of surface }
{
    match surface {
        SurfaceKind::Cylinder { radius, .. } => radius,
        _ => 0.0,
    }
}

// The round of face f, which is one.
pub fn round_at(file: &[u8], words: &[u32], reals: &[f64], at: Regions, f: usize) -> Round
    requires standing_1 { Standing file.now at words.now reals.now }
    requires standing_2 { Rounds (part_of file.now) at words.now reals.now }
    requires f_bound_1 { f < faces_of (part_of file.now) }
    requires f_bound_2 { is_round (part_of file.now) f ≡ true }
    ensures { result ≡ round_of (part_of file.now) f }
{
    let q = words[at.firsts + f] as usize;
    let kind = kind_of(words[at.kinds + f]);
    let surface = surface(file, entry_at(at.vertices, q));
    let m = measure_at(&reals[at.rounds..at.directions], f);
    Round {
        face: f,
        origin: origin(surface),
        axis: m.axis,
        radius: radius(surface),
        concave: kind != RoundKind::Convex,
        hole: kind == RoundKind::Hole,
        length: m.length,
        centre: m.centre,
    }
}
