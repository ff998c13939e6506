// The heights of a part along its build direction.
#![tactic(auto)]

ghost use Rattle.std.specs.Prelude.{◌≡◌};
ghost use Rattle.file_part.specs.Part.{part_of};
ghost use Rattle.solid_faces.specs.Faces.{Checked};
ghost use Rattle.print_height.specs.Height.{heights_to};

use file_part::corner::corner;
use file_part::read::vertex_count;
use math::Vec3;
use round_frame::extent::Extent;

// The lowest and the highest of all vertices of an accepted file, along `up`.
pub fn heights(file: &[u8], up: Vec3) -> Extent
    requires { Checked file.now }
    ensures { result ≡ heights_to (part_of file.now) up (part_of file.now).vertices }
{
    let mut e = Extent {
        lo: f64::INFINITY,
        hi: f64::NEG_INFINITY,
    };
    for i in 0..vertex_count(file) {
        e = e.reach(corner(file, i).dot(up));
    }
    e
}
