ghost use Rattle.std.specs.Prelude.{◌≡◌};
ghost use Rattle.tokens.specs.Token.{copies, drops, swaps};
ghost use Rattle.machine.specs.Machine.{operate};
ghost use Rattle.machine.specs.Abstraction.{Past, state, after};

use machine::event::{Event, Fault};
use machine::stage::Clipping;
use machine::state::Machine;
use path::builder::Path;

pub(crate) fn copy<'s, 'a, S: Clipping>(m: &mut Machine<'s, 'a, S>) -> Result<Event, Fault>
    ensures { (p : Path) (t : Past) → after result m.new p t ≡ operate (state m.old p t) copies }
{
    let Some(v) = m.operand_at(0) else {
        return Err(Fault::StackUnderflow);
    };
    m.push_value(v)
}

pub(crate) fn discard<'s, 'a, S: Clipping>(m: &mut Machine<'s, 'a, S>) -> Result<Event, Fault>
    ensures { (p : Path) (t : Past) → after result m.new p t ≡ operate (state m.old p t) drops }
{
    let Some(_) = m.operand_at(0) else {
        return Err(Fault::StackUnderflow);
    };
    m.drop_operands(1);
    Ok(Event::On)
}

pub(crate) fn swap<'s, 'a, S: Clipping>(m: &mut Machine<'s, 'a, S>) -> Result<Event, Fault>
    ensures { (p : Path) (t : Past) → after result m.new p t ≡ operate (state m.old p t) swaps }
{
    let Some(b) = m.operand_at(0) else {
        return Err(Fault::StackUnderflow);
    };
    let Some(a) = m.operand_at(1) else {
        return Err(Fault::StackUnderflow);
    };
    m.set_operand(0, a);
    m.set_operand(1, b);
    Ok(Event::On)
}
