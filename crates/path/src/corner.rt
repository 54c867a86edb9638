ghost use Rattle.std.specs.Prelude.{◌^◌, ◌<◌};

// No number of a point reaches this.
pub const LIMIT: u32 = 1 << 24;

// A point as the code holds it, in sixteenths of a dot from the left and from the top.
#[derive(Clone, Copy, Debug, PartialEq, Eq)]
pub struct Corner {
    pub x: u32,
    pub y: u32,
    pub ghost near: { (x < 2 ^ 24) × (y < 2 ^ 24) },
}
