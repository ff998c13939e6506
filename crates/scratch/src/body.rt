// The body of a part in the lent scratch: everything that the rules of its process ask of it.
ghost use Rattle.std.specs.Prelude.{◌≡◌, ◌≤◌, length};
ghost use Rattle.std.specs.Float.{nan};
ghost use Rattle.list_laws.specs.Region.{part, Outside};
ghost use Rattle.file_part.specs.Part.{part_of};
ghost use Rattle.solid_faces.specs.Faces.{faces_of};
ghost use Rattle.solid_faces.specs.Kept.{Faces, Chain, KeptAreas};
ghost use Rattle.scratch.specs.Standing.{Placed, Words, Reals, Standing};
ghost use Rattle.scratch.specs.Work.{LabelsPut, SidesPut, TotalsPut, VolumesPut};

use crate::regions::Regions;
use crate::tree::put_tree;
use list_cells::fill;
use solid_faces::areas::{add_area, put_areas, put_planes};
use solid_volumes::volume::volumes;

// For each polygon the next one of its face, from the last polygon down: `next` has for each face its lowest polygon so far.
fn put_chain(file: &[u8], words: &mut [u32], at: Regions)
    requires fact_1 { Placed file.now at }
    requires fact_2 { at.words ≤ length words.old }
    requires fact_3 { Faces (part_of file.now) (part at.faces at.readings words.old) }
    ensures chain { Chain (part_of file.now) (part at.chain at.faces words.new) }
    ensures outside { Outside 0 at.chain at.faces words.old words.new }
{
    let chain = at.chain;
    let faces = at.faces;
    let polygons = at.polygons;
    let mut next = [polygons as u32; 1024];
    for q in (0..polygons).rev() {
        let f = words[faces + q] as usize;
        words[chain + q] = next[f];
        next[f] = q as u32;
    }
}

// The body of each polygon, where the process asks for bodies.
fn put_labels(file: &[u8], words: &mut [u32], at: Regions)
    requires fact_1 { Placed file.now at }
    requires fact_2 { at.words ≤ length words.old }
    ensures { LabelsPut (part_of file.now) at words.old words.new }
{
    if !at.bodies {
        return;
    }
    let start: usize = 0;
    let work = at.work;
    solid_volumes::solid_bodies::label::bodies(file, &mut words[start..work]);
}

// The sides, where the process asks for segments.
fn put_sides(file: &[u8], words: &mut [u32], at: Regions)
    requires fact_1 { Placed file.now at }
    requires fact_2 { at.words ≤ length words.old }
    ensures { SidesPut (part_of file.now) at words.old words.new }
{
    if !at.segments {
        return;
    }
    let sides = at.sides;
    let faces = at.faces;
    solid_volumes::solid_segments::shared::shared_segments(file, &mut words[sides..faces]);
}

// The bodies and the sides that are asked for, the faces and the polygons of each. The number of faces.
fn put_words(file: &[u8], words: &mut [u32], at: Regions) -> usize
    requires fact_1 { Placed file.now at }
    requires fact_2 { at.words ≤ length words.old }
    ensures value_1 { result ≡ faces_of (part_of file.now) }
    ensures value_2 { Words (part_of file.now) at words.new }
    ensures outside { Outside 0 0 at.readings words.old words.new }
{
    put_labels(file, words, at);
    put_sides(file, words, at);
    let faces = at.faces;
    let end = at.readings;
    let n = solid_faces::faces::faces(file, &mut words[faces..end]);
    put_chain(file, words, at);
    n
}

// The area of each face, added in the order of its polygons.
fn put_totals(file: &[u8], words: &[u32], reals: &mut [f64], at: Regions)
    requires placed_1 { Placed file.now at }
    requires placed_2 { at.words ≤ length words.now }
    requires placed_3 { Words (part_of file.now) at words.now }
    requires reals_in_bounds_1 { at.reals ≤ length reals.old }
    requires reals_in_bounds_2 { KeptAreas (part_of file.now) at.polygons (part at.areas at.totals reals.old) }
    ensures { TotalsPut (part_of file.now) at reals.old reals.new }
{
    let polygons = at.polygons;
    let faces = at.faces;
    let areas = at.areas;
    let start = at.totals;
    let end = at.volumes;
    fill(&mut reals[start..end], 0.0);
    for q in 0..polygons {
        let f = words[faces + q] as usize;
        let area = reals[areas + q];
        add_area(&mut reals[start..end], f, area);
    }
}

// The volume of each body, where the process asks for bodies.
fn put_volumes(file: &[u8], words: &[u32], reals: &mut [f64], at: Regions)
    requires placed_1 { Placed file.now at }
    requires placed_2 { at.words ≤ length words.now }
    requires placed_3 { Words (part_of file.now) at words.now }
    requires reals_in_bounds { at.reals ≤ length reals.old }
    ensures { VolumesPut (part_of file.now) at reals.old reals.new }
{
    if !at.bodies {
        return;
    }
    let start: usize = 0;
    let polygons = at.polygons;
    let volume = at.volumes;
    let end = at.boxes;
    volumes(file, &words[start..polygons], &mut reals[volume..end]);
}

// The planes, the areas of polygons and faces, and the volumes that are asked for, where the words are put.
fn put_reals(file: &[u8], words: &[u32], reals: &mut [f64], at: Regions)
    requires placed_1 { Placed file.now at }
    requires placed_2 { at.words ≤ length words.now }
    requires placed_3 { Words (part_of file.now) at words.now }
    requires reals_in_bounds { at.reals ≤ length reals.old }
    ensures reals { Reals (part_of file.now) at reals.new }
    ensures outside { Outside nan 0 at.boxes reals.old reals.new }
{
    let start: usize = 0;
    let areas = at.areas;
    put_planes(file, &mut reals[start..areas]);
    let totals = at.totals;
    put_areas(file, &mut reals[areas..totals]);
    put_totals(file, words, reals, at);
    put_volumes(file, words, reals, at);
}

// The body of a part, as far as it is asked for. The number of its faces.
pub fn put_body(file: &[u8], words: &mut [u32], reals: &mut [f64], at: Regions) -> usize
    requires fact_1 { Placed file.now at }
    requires fact_2 { at.words ≤ length words.old }
    requires fact_3 { at.reals ≤ length reals.old }
    ensures value_1 { result ≡ faces_of (part_of file.now) }
    ensures value_2 { Standing file.now at words.new reals.new }
    ensures outside_1 { Outside 0 0 at.readings words.old words.new }
    ensures outside_2 { Outside nan 0 at.falling reals.old reals.new }
{
    let n = put_words(file, words, at);
    put_reals(file, words, reals, at);
    put_tree(file, words, reals, at);
    n
}
