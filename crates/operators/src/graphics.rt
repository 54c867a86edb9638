ghost use Rattle.std.specs.Prelude.{◌≡◌, true};
ghost use Rattle.tokens.specs.Token.{clips_by, greys, shifts, scales};
ghost use Rattle.machine.specs.Machine.{operate};
ghost use Rattle.machine.specs.Abstraction.{Past, state, after};

use machine::event::{Event, Fault};
use machine::stage::Clipping;
use machine::state::Machine;
use path::builder::Path;

// the lightest grey
const WHITE: u32 = 255;

// scales are below this
const SCALES: u64 = 65536;

// the path is one more clip, and no path is left
pub(crate) fn clip<'s, 'a, S: Clipping>(
    m: &mut Machine<'s, 'a, S>,
    path: &mut Path<'_>,
) -> Result<Event, Fault>
    requires { S.can 14 ≡ true }
    ensures { (t : Past) → after result m.new path.new t ≡ operate (state m.old path.old t) clips_by }
{
    let Ok(()) = m.append_clip(path) else {
        return Err(Fault::LimitExceeded);
    };
    path.clear();
    Ok(Event::On)
}

pub(crate) fn change_grey<'s, 'a, S: Clipping>(m: &mut Machine<'s, 'a, S>) -> Result<Event, Fault>
    ensures { (p : Path) (t : Past) → after result m.new p t ≡ operate (state m.old p t) greys }
{
    let n = m.number_at(0)?;
    if n > WHITE {
        return Err(Fault::OutOfRange);
    }
    m.set_grey(n as u8);
    m.drop_operands(1);
    Ok(Event::On)
}

// the corner moves to where a point is
pub(crate) fn shift<'s, 'a, S: Clipping>(m: &mut Machine<'s, 'a, S>) -> Result<Event, Fault>
    ensures { (p : Path) (t : Past) → after result m.new p t ≡ operate (state m.old p t) shifts }
{
    let (a, b) = m.two_numbers()?;
    let Some(corner) = m.place(a, b) else {
        return Err(Fault::OutOfRange);
    };
    m.set_corner(corner.x, corner.y);
    m.drop_operands(2);
    Ok(Event::On)
}

// the scale becomes so many sixteenths of itself
pub(crate) fn change_scale<'s, 'a, S: Clipping>(m: &mut Machine<'s, 'a, S>) -> Result<Event, Fault>
    ensures { (p : Path) (t : Past) → after result m.new p t ≡ operate (state m.old p t) scales }
{
    let n = m.number_at(0)?;
    let old = m.scale();
    let scale = old as u64 * n as u64 / 16;
    if scale >= SCALES {
        return Err(Fault::OutOfRange);
    }
    m.set_scale(scale as u32);
    m.drop_operands(1);
    Ok(Event::On)
}
