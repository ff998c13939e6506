// A ray of the lent slice.
ghost use Rattle.std.specs.Prelude.{◌≡◌, ◌+◌, ◌*◌, ◌≤◌, length};
ghost use Rattle.probe.specs.Rays.{ray_at};

use math::Vec3;
use wall_ray::strike::Ray;

// Ray k: its origin and its direction.
pub(crate) fn ray_at(rays: &[f64], k: usize) -> Ray
    requires { 6 * k + 6 ≤ length rays.now }
    ensures { result ≡ ray_at rays.now k }
{
    let at = 6 * k;
    let origin = Vec3 {
        x: rays[at],
        y: rays[at + 1],
        z: rays[at + 2],
    };
    let dir = Vec3 {
        x: rays[at + 3],
        y: rays[at + 4],
        z: rays[at + 5],
    };
    Ray { origin, dir }
}
