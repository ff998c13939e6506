// The messages of sheet metal, as dfm.rs's `sheet_metal` has them.
ghost use Rattle.num_text.specs.Text.{Adds};
ghost use Rattle.file_part.specs.Part.{part_of};
ghost use Rattle.solid_faces.specs.Faces.{Checked};
ghost use Rattle.fault_text.specs.Sheet.{ratio_text, no_material_text, material_text, not_one_thickness_text, bend_need, tight_bend_text, short_flange_text, sheet_small_hole_text, hole_too_close_text};

use crate::job::{job_of, put_name};
use crate::text::put_mm;
use num_text::text::Text;

// The bend ratio: the material's, or 1 where there is none.
fn put_ratio(text: &mut Text<'_>, file: &[u8])
    requires { Checked file.now }
    ensures { Adds text.old (ratio_text (part_of file.now)) text.new }
{
    let job = job_of(file);
    if job.has_material {
        text.put_thousandths(job.material.bend_ratio as u64);
        return;
    }
    text.put_bytes(b"1");
}

// There is no material.
pub(crate) fn put_no_material(text: &mut Text<'_>)
    ensures { Adds text.old no_material_text text.new }
{
    text.put_bytes(b"Assign a material to check bend radii against it; using 1x thickness.");
}

// The material is no sheet metal.
pub(crate) fn put_material(text: &mut Text<'_>, file: &[u8])
    requires { Checked file.now }
    ensures { Adds text.old (material_text (part_of file.now)) text.new }
{
    put_name(text, file, b"this material");
    text.put_bytes(b" is not formed as sheet metal.");
}

// The thinnest and the thickest reading, and the sheet's thickness.
pub(crate) fn put_not_one_thickness(text: &mut Text<'_>, lo: f64, hi: f64, thickness: f64)
    ensures { Adds text.old (not_one_thickness_text lo hi thickness) text.new }
{
    text.put_bytes(b"Sheet metal is one thickness throughout; this part runs from ");
    put_mm(text, lo);
    text.put_bytes(b" to ");
    put_mm(text, hi);
    text.put_bytes(b" (mostly ");
    put_mm(text, thickness);
    text.put_bytes(b").");
}

// The words around the ratio of `put_tight_bend`.
fn put_bend_need(text: &mut Text<'_>, file: &[u8])
    requires { Checked file.now }
    ensures { Adds text.old (bend_need (part_of file.now)) text.new }
{
    text.put_bytes(b" needs at least ");
    put_ratio(text, file);
    text.put_bytes(b"x thickness (");
}

// A bend of this inside radius, and the least.
pub(crate) fn put_tight_bend(text: &mut Text<'_>, file: &[u8], radius: f64, min_radius: f64)
    requires { Checked file.now }
    ensures { Adds text.old (tight_bend_text (part_of file.now) radius min_radius) text.new }
{
    text.put_bytes(b"Inside bend radius is ");
    put_mm(text, radius);
    text.put_bytes(b"; ");
    put_name(text, file, b"this material");
    put_bend_need(text, file);
    put_mm(text, min_radius);
    text.put_bytes(b") or it may crack.");
}

// A flange of this length, and the least.
pub(crate) fn put_short_flange(text: &mut Text<'_>, length: f64, min_flange: f64)
    ensures { Adds text.old (short_flange_text length min_flange) text.new }
{
    text.put_bytes(b"Flange reaches ");
    put_mm(text, length);
    text.put_bytes(b" from its bend; a press brake needs about 4x thickness (");
    put_mm(text, min_flange);
    text.put_bytes(b").");
}

// A hole that is d across, and the least.
pub(crate) fn put_sheet_small_hole(text: &mut Text<'_>, d: f64, min_hole: f64)
    ensures { Adds text.old (sheet_small_hole_text d min_hole) text.new }
{
    text.put_bytes(b"Hole is ");
    put_mm(text, d);
    text.put_bytes(b" across; holes smaller than ");
    put_mm(text, min_hole);
    text.put_bytes(b" punch poorly and may need drilling.");
}

// A hole at this distance from what is named, and the least.
pub(crate) fn put_hole_too_close(text: &mut Text<'_>, what: &[u8], gap: f64, need: f64)
    ensures { Adds text.old (hole_too_close_text what.now gap need) text.new }
{
    text.put_bytes(b"Hole edge is ");
    put_mm(text, gap);
    text.put_bytes(b" from ");
    text.put_bytes(what);
    text.put_bytes(b"; keep at least ");
    put_mm(text, need);
    text.put_bytes(b" so it does not distort.");
}
