ghost use Rattle.std.specs.Prelude.{◌≡◌, []};
ghost use Rattle.tokens.specs.Token.{defines, repeats, when};
ghost use Rattle.machine.specs.Machine.{operate, call, found};
ghost use Rattle.machine.specs.Abstraction.{Past, state, names_of, after};

use machine::event::{Event, Fault};
use machine::stage::Clipping;
use machine::state::{Machine, Value};
use path::builder::Path;

// a name means a value from now on
pub(crate) fn define<'s, 'a, S: Clipping>(m: &mut Machine<'s, 'a, S>) -> Result<Event, Fault>
    ensures { (p : Path) (t : Past) → after result m.new p t ≡ operate (state m.old p t) defines }
{
    let Some(v) = m.operand_at(0) else {
        return Err(Fault::StackUnderflow);
    };
    let Some(label) = m.operand_at(1) else {
        return Err(Fault::StackUnderflow);
    };
    let Value::Label(name) = label else {
        return Err(Fault::WrongKind);
    };
    m.bind(name, v);
    m.drop_operands(2);
    Ok(Event::On)
}

// a body so many times
pub(crate) fn repeat<'s, 'a, S: Clipping>(m: &mut Machine<'s, 'a, S>) -> Result<Event, Fault>
    ensures { (p : Path) (t : Past) → after result m.new p t ≡ operate (state m.old p t) repeats }
{
    let body = m.body_at(0)?;
    let n = m.number_at(1)?;
    m.drop_operands(2);
    m.enter(body, n)
}

// a body once, or not at all where the number is 0
pub(crate) fn branch<'s, 'a, S: Clipping>(m: &mut Machine<'s, 'a, S>) -> Result<Event, Fault>
    ensures { (p : Path) (t : Past) → after result m.new p t ≡ operate (state m.old p t) when }
{
    let body = m.body_at(0)?;
    let n = m.number_at(1)?;
    m.drop_operands(2);
    if n == 0 {
        m.enter(body, 0)
    } else {
        m.enter(body, 1)
    }
}

// what a name means: a body is run once, anything else goes on the stack
pub(crate) fn call_name<'s, 'a, S: Clipping>(
    m: &mut Machine<'s, 'a, S>,
    name: u8,
) -> Result<Event, Fault>
    ensures { (p : Path) (t : Past) → after result m.new p t ≡ call (state m.old p t) (found (names_of m.old) name []) }
{
    let Some(v) = m.meaning(name) else {
        return Err(Fault::Undefined);
    };
    match v {
        Value::Body(b) => m.enter(b, 1),
        _ => m.push_value(v),
    }
}
