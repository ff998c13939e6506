// The messages of machining, as dfm.rs's `machining` has them.
ghost use Rattle.num_text.specs.Text.{Adds};
ghost use Rattle.file_part.specs.Part.{part_of};
ghost use Rattle.solid_faces.specs.Faces.{Checked};
ghost use Rattle.fault_text.specs.Machining.{thin_wall_text, small_hole_text, deep_hole_max_text, deep_hole_standard_text, tight_inside_radius_text, deep_inside_corner_text, sharp_inside_corner_text};

use crate::job::{min_wall, put_name};
use crate::text::put_mm;
use num_text::text::Text;

// Smallest common drill (mm).
pub const MIN_DRILL: f64 = 1.0;

// Smallest inside radius a common end mill leaves (mm).
pub const MIN_MILL_RADIUS: f64 = 0.5;

// A wall that is x thick.
pub(crate) fn put_thin_wall(text: &mut Text<'_>, file: &[u8], x: f64)
    requires { Checked file.now }
    ensures { Adds text.old (thin_wall_text (part_of file.now) x) text.new }
{
    text.put_bytes(b"Wall is ");
    put_mm(text, x);
    text.put_bytes(b" thick; ");
    put_name(text, file, b"a machined part");
    text.put_bytes(b" needs at least ");
    put_mm(text, min_wall(file));
    text.put_bytes(b" to machine without chatter or breaking.");
}

// A hole that is d across.
pub(crate) fn put_small_hole(text: &mut Text<'_>, d: f64)
    ensures { Adds text.old (small_hole_text d) text.new }
{
    text.put_bytes(b"Hole is ");
    put_mm(text, d);
    text.put_bytes(b" across; below ");
    put_mm(text, MIN_DRILL);
    text.put_bytes(b" needs micro drills.");
}

// A hole past MAX_REACH diameters deep.
pub(crate) fn put_deep_hole_max(text: &mut Text<'_>, ratio: f64, d: f64, length: f64)
    ensures { Adds text.old (deep_hole_max_text ratio d length) text.new }
{
    text.put_bytes(b"Hole is ");
    text.put_decimal(ratio, 1);
    text.put_bytes(b" diameters deep (");
    put_mm(text, d);
    text.put_bytes(b" by ");
    put_mm(text, length);
    text.put_bytes(b"); past 10 it needs gun drilling.");
}

// A hole past STANDARD_REACH diameters deep.
pub(crate) fn put_deep_hole_standard(text: &mut Text<'_>, ratio: f64)
    ensures { Adds text.old (deep_hole_standard_text ratio) text.new }
{
    text.put_bytes(b"Hole is ");
    text.put_decimal(ratio, 1);
    text.put_bytes(b" diameters deep; standard drills reach about 4.");
}

// An inside corner of this radius.
pub(crate) fn put_tight_inside_radius(text: &mut Text<'_>, radius: f64)
    ensures { Adds text.old (tight_inside_radius_text radius) text.new }
{
    text.put_bytes(b"Inside radius is ");
    put_mm(text, radius);
    text.put_bytes(b"; below ");
    put_mm(text, MIN_MILL_RADIUS);
    text.put_bytes(b" needs very small end mills.");
}

// An inside corner past STANDARD_REACH tool diameters deep.
pub(crate) fn put_deep_inside_corner(text: &mut Text<'_>, ratio: f64, radius: f64, length: f64)
    ensures { Adds text.old (deep_inside_corner_text ratio radius length) text.new }
{
    text.put_bytes(b"A ");
    put_mm(text, radius);
    text.put_bytes(b" radius runs ");
    put_mm(text, length);
    text.put_bytes(b" deep (");
    text.put_decimal(ratio, 1);
    text.put_bytes(b" tool diameters); a larger radius lets a stiffer tool reach.");
}

// A sharp inside corner of this length, and the fillet asked for.
pub(crate) fn put_sharp_inside_corner(text: &mut Text<'_>, length: f64, fillet: f64)
    ensures { Adds text.old (sharp_inside_corner_text length fillet) text.new }
{
    text.put_bytes(b"Inside corner ");
    put_mm(text, length);
    text.put_bytes(
        b" long is sharp, but a rotating tool leaves its own radius here; add a fillet (at least ",
    );
    put_mm(text, fillet);
    text.put_bytes(b", larger for deep pockets).");
}
