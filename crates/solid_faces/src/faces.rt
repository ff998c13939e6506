// The faces of a part, in the order of their first polygons (dfm.rs's `Part::new`).
ghost use Rattle.std.specs.Prelude.{◌≡◌, cond, ◌+◌, ◌<◌, eqb, leb, length, set};
ghost use Rattle.solid_polygon.specs.file_part.specs.Layout.{polygon_count_of};
ghost use Rattle.solid_polygon.specs.file_part.specs.Part.{part_of};
ghost use Rattle.file_ok.specs.Work.{Readable};
ghost use Rattle.solid_faces.specs.Faces.{same_face, faces_of, face_number, Checked};
ghost use Rattle.solid_faces.specs.Kept.{Faces};
ghost use Rattle.solid_faces.specs.Work.{face_cells_of, id_slot, Table};

use solid_polygon::file_part::read::{FaceId, entry_at, face_id, polygon_count, vertex_count};

// More faces turn a part back (refusal 9).
const MOST: usize = 1024;

// The table of the faces so far begins with the heads of 2,048 chains, one for each slot of a hash. From here on it has for each face the link
// to the one before it in its slot. Heads and links are one more than a face's number, or 0.
const LINKS: usize = 2048;

// And from here on the first polygon of each face.
const FIRSTS: usize = 3072;

// The face of polygon p.
fn face_of(file: &[u8], p: usize) -> FaceId
    requires fact_1 { Readable file.now }
    requires fact_2 { p < polygon_count_of file.now }
    ensures { result ≡ ((part_of file.now).polygon p).face }
{
    face_id(file, entry_at(vertex_count(file), p))
}

// Whether polygons p and q are of one face.
#[tactic(auto, unfolding(crate::specs::Faces::same_face))]
fn of_one_face(file: &[u8], q: usize, p: usize) -> bool
    requires fact_1 { Readable file.now }
    requires fact_2 { q < polygon_count_of file.now }
    requires fact_3 { p < polygon_count_of file.now }
    ensures { result ≡ same_face ((part_of file.now).polygon q).face ((part_of file.now).polygon p).face }
{
    face_of(file, q) == face_of(file, p)
}

// The slot of a face's id. A file whose ids all have one slot is only slower.
#[tactic(auto, unfolding(crate::specs::Work::id_slot))]
fn slot_of(id: FaceId) -> usize
    ensures { (result ≡ id_slot id) × (result < 2048) }
{
    let mixed = u64::from(id.feature) * 73856093 + u64::from(id.index) * 83492791;
    ((mixed / 65536) as usize) % 2048
}

// The number of polygon p's face, by the chain of its slot: that of the face there which has its id, or the next number where none has.
// A number, not an Option: where none is found, it is that of the face which begins there.
fn find_face(file: &[u8], table: &[u32], count: usize, p: usize) -> usize
    requires fact_1 { Readable file.now }
    requires fact_2 { p < polygon_count_of file.now }
    requires fact_3 { Table (part_of file.now) p count table.now }
    ensures { result ≡ face_number (part_of file.now) p }
{
    let mut t = table[slot_of(face_of(file, p))] as usize;
    // A while: the chain of links in the slot is followed to its end.
    while t > 0 {
        let f = t - 1;
        if of_one_face(file, table[FIRSTS + f] as usize, p) {
            return f;
        }
        t = table[LINKS + f] as usize;
    }
    count
}

// The same; most polygons are of the face `last` of the polygon before them.
fn face_number(file: &[u8], table: &[u32], count: usize, p: usize, last: usize) -> usize
    requires fact_1 { Readable file.now }
    requires fact_2 { p < polygon_count_of file.now }
    requires fact_3 { Table (part_of file.now) p count table.now }
    ensures { result ≡ face_number (part_of file.now) p }
{
    if last < count && of_one_face(file, table[FIRSTS + last] as usize, p) {
        return last;
    }
    find_face(file, table, count, p)
}

// Puts polygon p's face f into the table, where it comes after the faces so far. The number of faces then.
fn link(file: &[u8], table: &mut [u32], count: usize, f: usize, p: usize) -> usize
    requires readable_1 { Readable file.now }
    requires readable_2 { p < polygon_count_of file.now }
    requires readable_3 { Table (part_of file.now) p count table.old }
    requires f_value_1 { f ≡ face_number (part_of file.now) p }
    requires f_value_2 { f < 1024 }
    ensures { Table (part_of file.now) (p + 1) result table.new }
{
    if f == count {
        let slot = slot_of(face_of(file, p));
        let before = table[slot];
        table[LINKS + f] = before;
        table[slot] = (f + 1) as u32;
        table[FIRSTS + f] = p as u32;
        return f + 1;
    }
    count
}

// Keeps polygon p as the first one of its face f, where that comes after the faces so far. The number of faces then.
fn note(mem: &mut [u32], start: usize, count: usize, f: usize, p: usize) -> usize
    requires fact_1 { start + f < length mem.old }
    requires fact_2 { p < 4294967296 }
    ensures value { result ≡ cond (eqb f count) (count + 1) count }
    ensures mem_after { mem.new ≡ cond (eqb f count) (set mem.old (start + f) p) mem.old }
{
    if f == count {
        mem[start + f] = p as u32;
        return count + 1;
    }
    count
}

// Whether the part has at most 1,024 faces. It stops at the first polygon of one more.
pub fn few_faces(file: &[u8]) -> bool
    requires { Readable file.now }
    ensures { result ≡ leb (faces_of (part_of file.now)) 1024 }
{
    let polygons = polygon_count(file);
    let mut table = [0u32; 4096];
    let mut count: usize = 0;
    let mut last: usize = 0;
    for p in 0..polygons {
        last = face_number(file, &table, count, p, last);
        if last == MOST {
            return false;
        }
        count = link(file, &mut table, count, last, p);
    }
    true
}

// The face number of each polygon, and after them the first polygon of each face. The number of faces.
pub fn faces(file: &[u8], mem: &mut [u32]) -> usize
    requires fact_1 { Checked file.now }
    requires fact_2 { length mem.old ≡ face_cells_of (polygon_count_of file.now) }
    ensures value_1 { result ≡ faces_of (part_of file.now) }
    ensures value_2 { Faces (part_of file.now) mem.new }
    ensures mem_len_unchanged { length mem.new ≡ length mem.old }
{
    let polygons = polygon_count(file);
    let mut table = [0u32; 4096];
    let mut count: usize = 0;
    let mut last: usize = 0;
    for p in 0..polygons {
        last = face_number(file, &table, count, p, last);
        mem[p] = last as u32;
        note(mem, polygons, count, last, p);
        count = link(file, &mut table, count, last, p);
    }
    count
}
