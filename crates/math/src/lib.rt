// Vectors of three f64, as math.rs has them.
#![tactic(auto)]

ghost use Rattle.std.specs.Prelude.{◌≡◌};
ghost use Rattle.math.specs.Vector.{plus, minus, times, over, opposite, dot_of, cross_of, length_sq_of, length_of, distance_of, normalized_of, perpendicular_of, low_of, high_of};

// Passed on to the crates above.
pub use num_real;

#[derive(Clone, Copy)]
pub struct Vec3 {
    pub x: f64,
    pub y: f64,
    pub z: f64,
}

impl Vec3 {
    pub const ZERO: Vec3 = Vec3 {
        x: 0.0,
        y: 0.0,
        z: 0.0,
    };

    pub const X: Vec3 = Vec3 {
        x: 1.0,
        y: 0.0,
        z: 0.0,
    };

    pub const Y: Vec3 = Vec3 {
        x: 0.0,
        y: 1.0,
        z: 0.0,
    };

    pub const Z: Vec3 = Vec3 {
        x: 0.0,
        y: 0.0,
        z: 1.0,
    };

    // self + o
    // Methods, as in the Rust that is ported, and not operators.
    pub fn add(self, o: Vec3) -> Vec3
        ensures { result ≡ plus self o }
    {
        Vec3 {
            x: self.x + o.x,
            y: self.y + o.y,
            z: self.z + o.z,
        }
    }

    // self - o
    pub fn sub(self, o: Vec3) -> Vec3
        ensures { result ≡ minus self o }
    {
        Vec3 {
            x: self.x - o.x,
            y: self.y - o.y,
            z: self.z - o.z,
        }
    }

    // self * s
    pub fn mul(self, s: f64) -> Vec3
        ensures { result ≡ times self s }
    {
        Vec3 {
            x: self.x * s,
            y: self.y * s,
            z: self.z * s,
        }
    }

    // self / s
    pub fn div(self, s: f64) -> Vec3
        ensures { result ≡ over self s }
    {
        Vec3 {
            x: self.x / s,
            y: self.y / s,
            z: self.z / s,
        }
    }

    // -self
    pub fn neg(self) -> Vec3
        ensures { result ≡ opposite self }
    {
        Vec3 {
            x: -self.x,
            y: -self.y,
            z: -self.z,
        }
    }

    pub fn dot(self, o: Vec3) -> f64
        ensures { result ≡ dot_of self o }
    {
        self.x * o.x + self.y * o.y + self.z * o.z
    }

    pub fn cross(self, o: Vec3) -> Vec3
        ensures { result ≡ cross_of self o }
    {
        Vec3 {
            x: self.y * o.z - self.z * o.y,
            y: self.z * o.x - self.x * o.z,
            z: self.x * o.y - self.y * o.x,
        }
    }

    pub fn length_sq(self) -> f64
        ensures { result ≡ length_sq_of self }
    {
        self.dot(self)
    }

    pub fn length(self) -> f64
        ensures { result ≡ length_of self }
    {
        num_norm::num_root::sqrt(self.length_sq())
    }

    pub fn distance(self, o: Vec3) -> f64
        ensures { result ≡ distance_of self o }
    {
        self.sub(o).length()
    }

    // Shorter than 1e-300 it stays as it is.
    pub fn normalized(self) -> Vec3
        ensures { result ≡ normalized_of self }
    {
        let l = self.length();
        if l < 1e-300 {
            return self;
        }
        self.div(l)
    }

    // Some unit vector perpendicular to self, which is not zero.
    pub fn any_perpendicular(self) -> Vec3
        ensures { result ≡ perpendicular_of self }
    {
        if num_real::select::abs(self.x) < 0.9 {
            return self.cross(Vec3::X).normalized();
        }
        self.cross(Vec3::Y).normalized()
    }

    // The lower of each component.
    pub fn min(self, o: Vec3) -> Vec3
        ensures { result ≡ low_of self o }
    {
        Vec3 {
            x: num_real::select::min(self.x, o.x),
            y: num_real::select::min(self.y, o.y),
            z: num_real::select::min(self.z, o.z),
        }
    }

    // The higher of each component.
    pub fn max(self, o: Vec3) -> Vec3
        ensures { result ≡ high_of self o }
    {
        Vec3 {
            x: num_real::select::max(self.x, o.x),
            y: num_real::select::max(self.y, o.y),
            z: num_real::select::max(self.z, o.z),
        }
    }
}
