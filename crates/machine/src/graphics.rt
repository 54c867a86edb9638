ghost use Rattle.std.specs.Prelude.{◌≡◌, ◌+◌, ◌*◌};
ghost use Rattle.machine.specs.Abstraction.{place_of, Placed};

use path::corner::Corner;

// Scale and corner in sixteenths of a dot. clips is how many words of clips are in force, weight how many paths and
// points these have, so that the limit is one comparison.
#[derive(Clone, Copy)]
pub struct GraphicsState {
    pub grey: u8,
    pub scale: u32,
    pub left: u32,
    pub top: u32,
    pub clips: usize,
    pub weight: usize,
}

// how far along an axis a number lies
fn along(origin: u32, scale: u32, n: u32) -> u64
    ensures { result ≡ origin + n * scale }
{
    origin as u64 + n as u64 * scale as u64
}

impl GraphicsState {
    // a point of the page, unless it is too far from the corner
    pub fn place(self, a: u32, b: u32) -> Option<Corner>
        ensures { Placed result (place_of self a b) }
    {
        let x = along(self.left, self.scale, a);
        let y = along(self.top, self.scale, b);
        if x < 16777216 && y < 16777216 {
            Some(Corner {
                x: x as u32,
                y: y as u32,
            })
        } else {
            None
        }
    }
}
