ghost use Rattle.std.specs.Prelude.{◌≡◌, ◌+◌, [], ◌∷◌, drop, MatchOption, slice_set};
ghost use Rattle.machine.specs.Machine.{State, push, with_one, with_two, with_code, with_stack};
ghost use Rattle.machine.specs.Abstraction.{Past, state, stack_of, value_of, after, OneOperand, TwoOperands, BodyOperand, with_number, with_numbers, with_body};

use super::{Machine, Value};
use crate::event::{Event, Fault};
use crate::stage::Clipping;
use path::builder::Path;

impl<'s, 'a, S: Clipping> Machine<'s, 'a, S> {
    // a value in place of the n uppermost
    pub fn push_over(&mut self, n: usize, v: Value<'a>) -> Result<Event, Fault>
        ensures { (p : Path) (t : Past) → after result self.new p t ≡ push (state self.old p t) (drop n (stack_of self.old)) (value_of v.entry) }
    {
        self.values.try_push_over(n, v)?;
        Ok(Event::On)
    }

    pub fn push_value(&mut self, v: Value<'a>) -> Result<Event, Fault>
        ensures { (p : Path) (t : Past) → after result self.new p t ≡ push (state self.old p t) (stack_of self.old) (value_of v.entry) }
    {
        self.push_over(0, v)
    }

    // the value that stands so far below the top
    pub fn operand_at(&self, below: usize) -> Option<Value<'a>>
        ensures { MatchOption result (drop below (stack_of self.now) ≡ []) (λ v. drop below (stack_of self.now) ≡ value_of v ∷ drop (below + 1) (stack_of self.now)) }
    {
        self.values.at(below)
    }

    // another value so far below the top, if one stands there
    pub fn set_operand(&mut self, below: usize, v: Value<'a>)
        ensures { (p : Path) (t : Past) → state self.new p t ≡ with_stack (state self.old p t) (slice_set (stack_of self.old) below (value_of v.entry)) }
    {
        self.values.set(below, v);
    }

    // the number that stands so far below the top
    pub fn number_at(&self, below: usize) -> Result<u32, Fault>
        ensures { (s : State) (f : OneOperand) → with_one s (drop below (stack_of self.now)) f ≡ with_number result s (drop (below + 1) (stack_of self.now)) f }
    {
        let Some(v) = self.operand_at(below) else {
            return Err(Fault::StackUnderflow);
        };
        match v {
            Value::Number(n) => Ok(n),
            _ => Err(Fault::WrongKind),
        }
    }

    // the body that stands so far below the top
    pub fn body_at(&self, below: usize) -> Result<&'a [u64], Fault>
        ensures { (s : State) (f : BodyOperand) → with_code s (drop below (stack_of self.now)) f ≡ with_body result s (drop (below + 1) (stack_of self.now)) f }
    {
        let Some(v) = self.operand_at(below) else {
            return Err(Fault::StackUnderflow);
        };
        match v {
            Value::Body(b) => Ok(b),
            _ => Err(Fault::WrongKind),
        }
    }

    // the two uppermost numbers, the lower one first
    pub fn two_numbers(&self) -> Result<(u32, u32), Fault>
        ensures { (p : Path) (t : Past) (f : TwoOperands) → with_two (state self.now p t) f ≡ with_numbers result (state self.now p t) (drop 2 (stack_of self.now)) f }
    {
        let b = self.number_at(0)?;
        let a = self.number_at(1)?;
        Ok((a, b))
    }

    pub fn drop_operands(&mut self, n: usize)
        ensures { (p : Path) (t : Past) → state self.new p t ≡ with_stack (state self.old p t) (drop n (stack_of self.old)) }
    {
        self.values.drop_top(n);
    }
}
