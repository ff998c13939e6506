// What a line of OBJ text is.
ghost use Rattle.std.specs.Prelude.{◌≡◌, ◌+◌, ◌≤◌, length, drop};
ghost use Rattle.obj_line.specs.Form.{vertex_form, face_form, group_form, form_of, line_of, Read};
ghost use Rattle.obj_line.specs.Work.{fields_after, or_other, vertex_line};

use crate::field::next;
use math::Vec3;
use obj_number::cut::find;
use obj_number::decimal::decimal;
use obj_number::whole::whole;

// The vertex numbers of a face: how many, and the largest, up to 2^63.
#[derive(Clone, Copy)]
pub struct Corners {
    pub count: usize,
    pub largest: u64,
}

// A line: a vertex, a face, a face index, one to skip, or of any other form.
#[derive(Clone, Copy)]
pub enum Line {
    Vertex(Vec3),
    Face(Corners),
    Group(u32),
    Skipped,
    Other,
}

// The vertex of a line that begins with a v; none where it is of any other form.
fn vertex_line(line: &[u8]) -> Option<Vec3>
    ensures { or_other Line.Vertex result ≡ line_of (vertex_form (fields_after (drop 1 line.now))) }
{
    let a = next(line, 1);
    let x = decimal(&line[a.from..a.to])?;
    let b = next(line, a.to);
    let y = decimal(&line[b.from..b.to])?;
    let c = next(line, b.to);
    let z = decimal(&line[c.from..c.to])?;
    if c.to < line.len() {
        return None;
    }
    Some(Vec3 { x, y, z })
}

// The corners of a line that begins with an f; none where it is of any other form. Its numbers stand in the table from the place `used` on.
fn face_line(line: &[u8], numbers: &mut [u64], used: usize) -> Option<Corners>
    requires { used + 64 ≤ length numbers.old }
    ensures { Read (face_form (fields_after (drop 1 line.now))) numbers.old used numbers.new (or_other Line.Face result) }
{
    let mut at: usize = 1;
    let mut count: usize = 0;
    let mut largest: u64 = 0;
    // A while: the next field begins where this one ends.
    while at < line.len() {
        if count == 64 {
            return None;
        }
        let f = next(line, at);
        let n = whole(&line[f.from..f.to])?;
        if n == 0 {
            return None;
        }
        numbers[used + count] = n;
        largest = largest.max(n);
        count += 1;
        at = f.to;
    }
    if count < 3 {
        return None;
    }
    Some(Corners { count, largest })
}

// The face index of a line that begins with a g; none where it is of any other form.
fn group_line(line: &[u8]) -> Option<u32>
    ensures { or_other Line.Group result ≡ line_of (group_form (fields_after (drop 1 line.now))) }
{
    let f = next(line, 1);
    if f.to < line.len() {
        return None;
    }
    let n = whole(&line[f.from..f.to])?;
    u32::try_from(n).ok()
}

// What a line is. The numbers of a face stand in the table from the place `used` on.
pub fn read_line(line: &[u8], numbers: &mut [u64], used: usize) -> Line
    requires { used + 64 ≤ length numbers.old }
    ensures { Read (form_of line.now) numbers.old used numbers.new result }
{
    if line.len() == 0 {
        return Line::Skipped;
    }
    let b = line[0];
    if b == b'#' {
        return Line::Skipped;
    }
    if find(line, b' ') != 1 {
        return Line::Other;
    }
    match b {
        b'v' => vertex_line(line).map_or(Line::Other, Line::Vertex),
        b'f' => face_line(line, numbers, used).map_or(Line::Other, Line::Face),
        b'g' => group_line(line).map_or(Line::Other, Line::Group),
        _ => Line::Other,
    }
}

// A line if it begins with a v; any other is passed over.
pub fn read_vertex(line: &[u8]) -> Line
    ensures { result ≡ vertex_line line.now }
{
    if line.len() == 0 {
        return Line::Skipped;
    }
    if line[0] != b'v' {
        return Line::Skipped;
    }
    if find(line, b' ') != 1 {
        return Line::Other;
    }
    vertex_line(line).map_or(Line::Other, Line::Vertex)
}
