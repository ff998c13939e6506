// A cylinder's axis, with two directions across it.
ghost use Rattle.std.specs.Prelude.{◌≡◌};
ghost use Rattle.round_frame.specs.Frame.{frame_of, height_of, vote_of};

use math::Vec3;

#[derive(Clone, Copy)]
pub struct Frame {
    pub origin: Vec3,
    pub axis: Vec3,
    pub x: Vec3,
    pub y: Vec3,
}

impl Frame {
    pub fn new(origin: Vec3, dir: Vec3) -> Frame
        ensures { result ≡ frame_of origin dir }
    {
        let axis = dir.normalized();
        let x = axis.any_perpendicular().normalized();
        Frame {
            origin,
            axis,
            x,
            y: axis.cross(x),
        }
    }

    // How far along the axis v lies.
    pub fn height(self, v: Vec3) -> f64
        ensures { result ≡ height_of self v }
    {
        v.sub(self.origin).dot(self.axis)
    }

    // How much a polygon with centroid c faces away from the axis, times its area.
    pub fn vote(self, normal: Vec3, c: Vec3, area: f64) -> f64
        ensures { result ≡ vote_of self normal c area }
    {
        let d = c.sub(self.origin);
        let radial = d.sub(self.axis.mul(d.dot(self.axis)));
        normal.dot(radial.normalized()) * area
    }
}
