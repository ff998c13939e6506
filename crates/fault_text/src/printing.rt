// The messages of printing, as dfm.rs's `printing` has them.
ghost use Rattle.std.specs.Prelude.{◌≡◌};
ghost use Rattle.num_text.specs.Text.{Adds};
ghost use Rattle.fault_text.specs.Printing.{label_of, limit_of, not_closed_text, floor_text, thinner_than_a_layer_text, few_layers_text, thinner_than_the_nozzle_text, print_thin_wall_text, print_small_hole_text, overhang_text, enclosed_hollow_sla_text, enclosed_hollow_sls_text};

use crate::text::put_mm;
use file_job::Process;
use num_text::text::Text;

// dfm.rs's `label`.
#[tactic(auto, unfolding(crate::specs::Printing::label_of))]
fn label(process: Process) -> &'static [u8]
    ensures { result.now ≡ label_of process }
{
    match process {
        Process::CncMachining => b"CNC machining",
        Process::SheetMetal => b"Sheet metal",
        Process::Fdm => b"FDM printing",
        Process::Sla => b"SLA printing",
        Process::Sls => b"SLS printing",
    }
}

// The limit of overhangs, in degrees.
fn overhang_limit(tenths: u32) -> f64
    ensures { result ≡ limit_of tenths }
{
    tenths as f64 / 10.0
}

// So many open edges.
pub(crate) fn put_not_closed(text: &mut Text<'_>, edges: u32)
    ensures { Adds text.old (not_closed_text edges) text.new }
{
    text.put_bytes(b"The body has ");
    text.put_number(edges as u64);
    text.put_bytes(b" open edges; a slicer needs a closed solid to tell inside from outside.");
}

// The start of the next two.
fn put_floor(text: &mut Text<'_>, x: f64)
    ensures { Adds text.old (floor_text x) text.new }
{
    text.put_bytes(b"Floor or roof is ");
    put_mm(text, x);
    text.put_bytes(b" thick, ");
}

// A floor or a roof that is x thick.
pub(crate) fn put_thinner_than_a_layer(text: &mut Text<'_>, x: f64, layer: f64)
    ensures { Adds text.old (thinner_than_a_layer_text x layer) text.new }
{
    put_floor(text, x);
    text.put_bytes(b"less than one ");
    put_mm(text, layer);
    text.put_bytes(b" layer; it will not print.");
}

// A floor or a roof that is x thick, which is so many layers.
pub(crate) fn put_few_layers(text: &mut Text<'_>, x: f64, layers: f64, layer: f64)
    ensures { Adds text.old (few_layers_text x layers layer) text.new }
{
    put_floor(text, x);
    text.put_decimal(layers, 1);
    text.put_bytes(b" layers of ");
    put_mm(text, layer);
    text.put_bytes(b"; at least two layers (");
    put_mm(text, 2.0 * layer);
    text.put_bytes(b") hold together.");
}

// A wall that is x thick.
pub(crate) fn put_thinner_than_the_nozzle(text: &mut Text<'_>, x: f64, nozzle: f64)
    ensures { Adds text.old (thinner_than_the_nozzle_text x nozzle) text.new }
{
    text.put_bytes(b"Wall is ");
    put_mm(text, x);
    text.put_bytes(b" thick, narrower than the ");
    put_mm(text, nozzle);
    text.put_bytes(b" nozzle's line; the slicer will leave it out.");
}

// The same, wider than the nozzle.
pub(crate) fn put_print_thin_wall(text: &mut Text<'_>, process: Process, x: f64, min_wall: f64)
    ensures { Adds text.old (print_thin_wall_text process x min_wall) text.new }
{
    text.put_bytes(b"Wall is ");
    put_mm(text, x);
    text.put_bytes(b" thick; ");
    text.put_bytes(label(process));
    text.put_bytes(b" needs at least ");
    put_mm(text, min_wall);
    text.put_bytes(b" to print reliably.");
}

// A hole that is d across.
pub(crate) fn put_print_small_hole(text: &mut Text<'_>, d: f64, min_hole: f64)
    ensures { Adds text.old (print_small_hole_text d min_hole) text.new }
{
    text.put_bytes(b"Hole is ");
    put_mm(text, d);
    text.put_bytes(b" across; holes under ");
    put_mm(text, min_hole);
    text.put_bytes(b" print undersized or close up. Print it larger and drill it to size.");
}

// Faces of this area, and the limit in tenths of a degree.
pub(crate) fn put_overhang(text: &mut Text<'_>, area: f64, tenths: u32)
    ensures { Adds text.old (overhang_text area tenths) text.new }
{
    text.put_decimal(area, 1);
    text.put_bytes(b" mm\xc2\xb2 faces down more than ");
    text.put_decimal(overhang_limit(tenths), 0);
    text.put_bytes(b"\xc2\xb0 from vertical and needs supports; turning the part may avoid them.");
}

// A hollow of this volume, in resin.
pub(crate) fn put_enclosed_hollow_sla(text: &mut Text<'_>, volume: f64)
    ensures { Adds text.old (enclosed_hollow_sla_text volume) text.new }
{
    text.put_bytes(b"An enclosed hollow of ");
    text.put_decimal(volume, 1);
    text.put_bytes(
        b" mm\xc2\xb3 traps liquid resin, which can crack the part; add drain holes, or fill it.",
    );
}

// The same, in powder.
pub(crate) fn put_enclosed_hollow_sls(text: &mut Text<'_>, volume: f64)
    ensures { Adds text.old (enclosed_hollow_sls_text volume) text.new }
{
    text.put_bytes(b"An enclosed hollow of ");
    text.put_decimal(volume, 1);
    text.put_bytes(
        b" mm\xc2\xb3 traps unsintered powder; add escape holes so it can be cleared, or fill it.",
    );
}
