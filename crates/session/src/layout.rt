ghost use Rattle.std.specs.Prelude.{◌≡◌, ◌+◌, ◌*◌, if◌then◌else◌, Ok, Err, nat_le};
ghost use Rattle.session.specs.Jobs.{good_size};

use super::order::Order;
use text::refusal::Refusal;

// Words for the header, for a path of 1,024 points, each at worst a subpath of its own, and for as much of clips.
pub(super) const HEADER: usize = 4;

pub(super) const PATH: usize = 3072;

pub(super) const CLIPS: usize = 3072;

// How many rows at most are asked for at once.
pub(super) const ROWS: usize = 64;

// Steps or a size out of range.
const OUT_OF_RANGE: Refusal = Refusal::TooLarge { place: 0 };

// The steps, if a job may take so many.
pub(super) fn few_enough(steps: u64) -> Result<u32, Refusal>
    ensures { result ≡ (if nat_le steps 1000000000 then Ok steps else Err (Refusal.TooLarge 0)) }
{
    if steps <= 1_000_000_000 {
        Ok(steps as u32)
    } else {
        Err(OUT_OF_RANGE)
    }
}

// Whether steps, width and height are in range.
pub(super) fn in_range(order: Order) -> Result<(), Refusal>
    ensures { result ≡ (if good_size order.steps order.width order.height then Ok tt else Err (Refusal.TooLarge 0)) }
{
    let fits = order.steps <= 1_000_000_000
        && order.width >= 1
        && order.width <= 8192
        && order.height >= 1
        && order.height <= 65535;
    if fits { Ok(()) } else { Err(OUT_OF_RANGE) }
}

// How many numbers a job of so many tokens asks for.
pub(super) fn words_asked(tokens: usize, kept: u64) -> u128
    ensures { result ≡ 2 * tokens + 6148 + kept }
{
    2 * tokens as u128 + (HEADER + PATH + CLIPS) as u128 + kept as u128
}

// Whether as much memory is lent as is asked for; the place says whether it is the numbers, 0, or the bytes, 1.
pub(super) fn enough(lent: usize, asked: u128, place: usize) -> Result<(), Refusal>
    ensures { result ≡ (if nat_le asked lent then Ok tt else Err (Refusal.TooLittleMemory place)) }
{
    if asked <= lent as u128 {
        Ok(())
    } else {
        Err(Refusal::TooLittleMemory { place })
    }
}
