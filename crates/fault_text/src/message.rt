// The message of a flaw.
ghost use Rattle.num_text.specs.Text.{Adds};
ghost use Rattle.file_part.specs.Part.{part_of};
ghost use Rattle.solid_faces.specs.Faces.{Checked};
ghost use Rattle.fault_text.specs.Told.{text_of};

use crate::job::job_of;
use crate::machining::{
    put_deep_hole_max, put_deep_hole_standard, put_deep_inside_corner, put_sharp_inside_corner,
    put_small_hole, put_thin_wall, put_tight_inside_radius,
};
use crate::printing::{
    put_enclosed_hollow_sla, put_enclosed_hollow_sls, put_few_layers, put_not_closed, put_overhang,
    put_print_small_hole, put_print_thin_wall, put_thinner_than_a_layer,
    put_thinner_than_the_nozzle,
};
use crate::sheet::{
    put_hole_too_close, put_material, put_no_material, put_not_one_thickness, put_sheet_small_hole,
    put_short_flange, put_tight_bend,
};
use fault_row::flaw::Flaw;
use num_text::text::Text;

// The text of a flaw.
// A match, not a table of closures: each message has its own numbers.
pub fn put_message(text: &mut Text<'_>, file: &[u8], flaw: Flaw)
    requires { Checked file.now }
    ensures { Adds text.old (text_of (part_of file.now) flaw) text.new }
{
    let job = job_of(file);
    let process = job.process;
    match flaw {
        Flaw::ThinWall(_, _, _, x) => put_thin_wall(text, file, x),
        Flaw::SmallHole(_, d) => put_small_hole(text, d),
        Flaw::DeepHoleMax(_, ratio, d, length) => put_deep_hole_max(text, ratio, d, length),
        Flaw::DeepHoleStandard(_, ratio) => put_deep_hole_standard(text, ratio),
        Flaw::TightInsideRadius(_, radius) => put_tight_inside_radius(text, radius),
        Flaw::DeepInsideCorner(_, ratio, radius, length) => put_deep_inside_corner(
            text, ratio, radius, length,
        ),
        Flaw::SharpInsideCorner(_, _, length, fillet) => put_sharp_inside_corner(
            text, length, fillet,
        ),
        Flaw::NoMaterial => put_no_material(text),
        Flaw::Material => put_material(text, file),
        Flaw::NotOneThickness(lo, hi, thickness) => put_not_one_thickness(text, lo, hi, thickness),
        Flaw::TightBend(_, _, radius, least) => put_tight_bend(text, file, radius, least),
        Flaw::ShortFlange(_, _, length, least) => put_short_flange(text, length, least),
        Flaw::SheetSmallHole(_, d, least) => put_sheet_small_hole(text, d, least),
        Flaw::HoleNearBend(_, _, gap, need) => put_hole_too_close(text, b"a bend", gap, need),
        Flaw::HoleNearEdge(_, _, gap, need) => put_hole_too_close(
            text,
            b"an edge or another hole",
            gap,
            need,
        ),
        Flaw::NotClosed(edges) => put_not_closed(text, edges),
        Flaw::ThinnerThanALayer(_, _, x) => put_thinner_than_a_layer(text, x, job.print.layer),
        Flaw::FewLayers(_, _, x, layers) => put_few_layers(text, x, layers, job.print.layer),
        Flaw::ThinnerThanTheNozzle(_, _, x) => put_thinner_than_the_nozzle(
            text,
            x,
            job.print.nozzle,
        ),
        Flaw::PrintThinWall(_, _, _, x) => put_print_thin_wall(
            text,
            process,
            x,
            job.print.min_wall,
        ),
        Flaw::PrintSmallHole(_, d) => put_print_small_hole(text, d, job.print.min_hole),
        Flaw::Overhang(_, area) => put_overhang(text, area, job.print.overhang),
        Flaw::EnclosedHollowSla(_, volume) => put_enclosed_hollow_sla(text, volume),
        Flaw::EnclosedHollowSls(_, volume) => put_enclosed_hollow_sls(text, volume),
    }
}
