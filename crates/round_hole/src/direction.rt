// The direction of a vertex about an axis, in whole numbers from -2^20 to 2^20.
#[derive(Clone, Copy)]
pub struct Direction {
    pub u: i64,
    pub v: i64,
}
