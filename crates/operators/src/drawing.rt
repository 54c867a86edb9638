ghost use Rattle.std.specs.Prelude.{◌≡◌};
ghost use Rattle.tokens.specs.Token.{moves, lines, fills, shows};
ghost use Rattle.machine.specs.Machine.{operate};
ghost use Rattle.machine.specs.Abstraction.{Past, state, after, after_event};

use machine::event::{Event, Fault};
use machine::stage::Clipping;
use machine::state::Machine;
use path::builder::Path;

// a new subpath begins at a point
pub(crate) fn move_to<'s, 'a, S: Clipping>(
    m: &mut Machine<'s, 'a, S>,
    path: &mut Path<'_>,
) -> Result<Event, Fault>
    ensures { (t : Past) → after result m.new path.new t ≡ operate (state m.old path.old t) moves }
{
    let (a, b) = m.two_numbers()?;
    let Some(corner) = m.place(a, b) else {
        return Err(Fault::OutOfRange);
    };
    path.begin_subpath(corner)?;
    m.drop_operands(2);
    Ok(Event::On)
}

// the open subpath goes on to a point
pub(crate) fn line_to<'s, 'a, S: Clipping>(
    m: &mut Machine<'s, 'a, S>,
    path: &mut Path<'_>,
) -> Result<Event, Fault>
    ensures { (t : Past) → after result m.new path.new t ≡ operate (state m.old path.old t) lines }
{
    let (a, b) = m.two_numbers()?;
    if !path.is_open() {
        return Err(Fault::NoCurrentPoint);
    }
    let Some(corner) = m.place(a, b) else {
        return Err(Fault::OutOfRange);
    };
    path.append_point(corner)?;
    m.drop_operands(2);
    Ok(Event::On)
}

// the path is painted, and none is left
pub(crate) fn paint_path<'s, 'a, S: Clipping>(_m: &Machine<'s, 'a, S>, path: &mut Path<'_>) -> Event
    ensures { (t : Past) → after_event result _m.now path.new t ≡ operate (state _m.now path.old t) fills }
{
    let n = path.used();
    path.clear();
    Event::Painted(n)
}

// what was painted is a page, and no path is left
pub(crate) fn show_page<'s, 'a, S: Clipping>(_m: &Machine<'s, 'a, S>, path: &mut Path<'_>) -> Event
    ensures { (t : Past) → after_event result _m.now path.new t ≡ operate (state _m.now path.old t) shows }
{
    path.clear();
    Event::Shown
}
