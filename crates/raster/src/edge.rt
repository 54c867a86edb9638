ghost use Rattle.std.specs.Prelude.{◌≡◌, ℕ, ◌+◌, ◌-◌, ◌*◌, ◌<◌, ◌≤◌, false, MatchOption, nat_le};
ghost use Rattle.path.specs.Points.{point_of};
ghost use Rattle.raster.specs.Coverage.{crosses};

use path::corner::Corner;

// The first dot whose middle is where the edge down from `upper` to `lower` crosses the level, or right of that.
fn first_dot(upper: Corner, lower: Corner, level: u32) -> u64
    requires { (upper.y ≤ level) × (level < lower.y) }
    ensures { (x : ℕ) → nat_le (upper.x * (lower.y - level) + lower.x * (level - upper.y)) ((16 * x + 8) * (lower.y - upper.y)) ≡ nat_le result x }
{
    let height = (lower.y - upper.y) as u64;
    let below = (lower.y - level) as u64;
    let above = (level - upper.y) as u64;
    let sum = upper.x as u64 * below + lower.x as u64 * above;
    (sum + 8 * height - 1) / (16 * height)
}

// The first dot that lies past the crossing of the edge with the level, if they cross.
pub fn crossed(from: Corner, to: Corner, level: u32) -> Option<u64>
    ensures { MatchOption result ((x : ℕ) → crosses (point_of from) (point_of to) (16 * x + 8) level ≡ false) (λ c. (x : ℕ) → crosses (point_of from) (point_of to) (16 * x + 8) level ≡ nat_le c x) }
{
    if from.y <= level {
        if level < to.y {
            return Some(first_dot(from, to, level));
        }
        return None;
    }
    if to.y <= level {
        return Some(first_dot(to, from, level));
    }
    None
}
