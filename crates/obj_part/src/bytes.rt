// Fields of a part file as text that is written.
ghost use Rattle.num_text.specs.Text.{Adds};
ghost use Rattle.obj_part.specs.Bytes.{le32, le64, f64_bytes, vec_bytes, entry_bytes, trailer_bytes};
ghost use Rattle.std.specs.Prelude.{◌≤◌, replicate};

use math::Vec3;
use num_real::bits::to_bits;
use num_text::text::Text;

// A u32, little-endian.
pub fn put_u32(text: &mut Text<'_>, n: u32)
    ensures { Adds text.old (le32 n) text.new }
{
    text.put_bytes(&n.to_le_bytes());
}

// A u64.
pub fn put_u64(text: &mut Text<'_>, n: u64)
    ensures { Adds text.old (le64 n) text.new }
{
    text.put_bytes(&n.to_le_bytes());
}

// An f64, by its bits.
pub fn put_f64(text: &mut Text<'_>, x: f64)
    ensures { Adds text.old (f64_bytes x) text.new }
{
    put_u64(text, to_bits(x));
}

// A vertex.
pub fn put_vec(text: &mut Text<'_>, v: Vec3)
    ensures { Adds text.old (vec_bytes v) text.new }
{
    put_f64(text, v.x);
    put_f64(text, v.y);
    put_f64(text, v.z);
}

// The seven f64 that a plane has no use for.
fn put_no_surface(text: &mut Text<'_>)
    ensures { Adds text.old (replicate 56 0) text.new }
{
    text.put_bytes(&[0u8; 56]);
}

// A polygon: a plane of feature 1.
pub fn put_entry(text: &mut Text<'_>, index: u32, first: u32, count: u32)
    ensures { Adds text.old (entry_bytes index first count) text.new }
{
    put_u32(text, 1);
    put_u32(text, index);
    put_u32(text, first);
    put_u32(text, count);
    put_u32(text, 0);
    put_u32(text, 0);
    put_no_surface(text);
}

// The last 16 bytes.
pub fn put_trailer(text: &mut Text<'_>, vertices: u32, polygons: u32)
    requires { polygons ≤ 4096 }
    ensures { Adds text.old (trailer_bytes vertices polygons) text.new }
{
    put_u32(text, 1);
    put_u32(text, vertices);
    put_u32(text, polygons);
    put_u32(text, 80 * polygons + 144);
}
