ghost use Rattle.std.specs.Prelude.{◌≡◌, drop};
ghost use Rattle.tokens.specs.Token.{adds, takes, multiplies, divides, is_less};
ghost use Rattle.machine.specs.Machine.{operate, push_number};
ghost use Rattle.machine.specs.Abstraction.{Past, state, stack_of, after};

use machine::event::{Event, Fault};
use machine::stage::Clipping;
use machine::state::{Machine, Value};
use path::builder::Path;

// results are below this
const BOUND: u64 = 2147483648;

// a result in place of two operands
fn put_result<'s, 'a, S: Clipping>(m: &mut Machine<'s, 'a, S>, n: u64) -> Result<Event, Fault>
    ensures { (p : Path) (t : Past) → after result m.new p t ≡ push_number (state m.old p t) (drop 2 (stack_of m.old)) n }
{
    if n >= BOUND {
        return Err(Fault::OutOfRange);
    }
    m.push_over(2, Value::Number(n as u32))
}

pub(crate) fn add<'s, 'a, S: Clipping>(m: &mut Machine<'s, 'a, S>) -> Result<Event, Fault>
    ensures { (p : Path) (t : Past) → after result m.new p t ≡ operate (state m.old p t) adds }
{
    let (a, b) = m.two_numbers()?;
    put_result(m, a as u64 + b as u64)
}

pub(crate) fn subtract<'s, 'a, S: Clipping>(m: &mut Machine<'s, 'a, S>) -> Result<Event, Fault>
    ensures { (p : Path) (t : Past) → after result m.new p t ≡ operate (state m.old p t) takes }
{
    let (a, b) = m.two_numbers()?;
    if b > a {
        return Err(Fault::OutOfRange);
    }
    put_result(m, (a - b) as u64)
}

pub(crate) fn multiply<'s, 'a, S: Clipping>(m: &mut Machine<'s, 'a, S>) -> Result<Event, Fault>
    ensures { (p : Path) (t : Past) → after result m.new p t ≡ operate (state m.old p t) multiplies }
{
    let (a, b) = m.two_numbers()?;
    put_result(m, a as u64 * b as u64)
}

pub(crate) fn divide<'s, 'a, S: Clipping>(m: &mut Machine<'s, 'a, S>) -> Result<Event, Fault>
    ensures { (p : Path) (t : Past) → after result m.new p t ≡ operate (state m.old p t) divides }
{
    let (a, b) = m.two_numbers()?;
    if b == 0 {
        return Err(Fault::OutOfRange);
    }
    put_result(m, (a / b) as u64)
}

// 1 where the lower one is less, else 0
pub(crate) fn compare<'s, 'a, S: Clipping>(m: &mut Machine<'s, 'a, S>) -> Result<Event, Fault>
    ensures { (p : Path) (t : Past) → after result m.new p t ≡ operate (state m.old p t) is_less }
{
    let (a, b) = m.two_numbers()?;
    if a < b {
        put_result(m, 1)
    } else {
        put_result(m, 0)
    }
}
