// The first line: how many lines follow, the thickness, the bends, the height.
ghost use Rattle.num_text.specs.Text.{Adds};
ghost use Rattle.report.specs.Text.{length_text, head_text};

use fault_row::summary::Summary;
use num_real::bits::to_bits;
use num_text::text::Text;

// A length by its bits, or a dash.
fn put_length(text: &mut Text<'_>, length: Option<f64>)
    ensures { Adds text.old (length_text length) text.new }
{
    match length {
        Some(x) => text.put_hex(to_bits(x)),
        None => text.put_byte(b'-'),
    }
}

pub(crate) fn put_head(text: &mut Text<'_>, findings: usize, summary: Summary)
    ensures { Adds text.old (head_text findings summary) text.new }
{
    text.put_number(findings as u64);
    text.put_byte(b' ');
    put_length(text, summary.thickness);
    text.put_byte(b' ');
    text.put_number(summary.bends as u64);
    text.put_byte(b' ');
    put_length(text, summary.height);
    text.put_byte(10);
}
