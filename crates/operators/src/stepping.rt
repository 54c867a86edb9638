ghost use Rattle.std.specs.Prelude.{◌≡◌};
ghost use Rattle.machine.specs.Stage.{step_of};
ghost use Rattle.machine.specs.Abstraction.{Past, state, after, OnlyOutside};

use crate::calling::call_name;
use crate::perform::operate;
use machine::event::{Event, Fault};
use machine::stage::Clipping;
use machine::state::{Frame, Machine, Value};
use path::builder::Path;
use tokens::{Token, next_token};

// the next token of the innermost frame, or its body again, or back to the frame around it
pub fn step<'s, 'a, S: Clipping>(
    m: &mut Machine<'s, 'a, S>,
    path: &mut Path<'_>,
) -> Result<Event, Fault>
    ensures steps { (t : Past) → after result m.new path.new t ≡ step_of S.can (state m.old path.old t) }
    ensures unsupported { OnlyOutside S.can result }
{
    let Some(f) = m.top() else {
        return Ok(Event::Finished);
    };
    match next_token(f.rest) {
        None => {
            if f.again > 0 {
                m.replace_top(Frame {
                    rest: f.whole,
                    again: f.again - 1,
                    whole: f.whole,
                });
            } else {
                m.leave();
            }
            Ok(Event::On)
        }
        Some((token, rest)) => {
            m.replace_top(Frame {
                rest,
                again: f.again,
                whole: f.whole,
            });
            match token {
                Token::Number(n) => m.push_value(Value::Number(n)),
                Token::Does(op) => operate(m, path, op),
                Token::Name(k) => call_name(m, k),
                Token::Quoted(k) => m.push_value(Value::Label(k)),
                Token::Body(b) => m.push_value(Value::Body(b)),
            }
        }
    }
}
