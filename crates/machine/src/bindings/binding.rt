ghost use Rattle.std.specs.Prelude.{◌≡◌, [], ◌∷◌, length, replicate, MatchOption};
ghost use Rattle.machine.specs.Machine.{found, rebound};
ghost use Rattle.machine.specs.Abstraction.{bindings_of, value_of};

use super::Bindings;
use crate::state::Value;

fn forget<'a>(meanings: &mut [Option<Value<'a>>])
    ensures { meanings.new ≡ replicate (length meanings.old) None }
{
    // where nothing is meant nothing is written: this is done at each run
    for meaning in meanings.iter_mut() {
        if meaning.is_some() {
            *meaning = None;
        }
    }
}

impl<'s, 'a> Bindings<'s, 'a> {
    // no name means anything
    pub fn new(meanings: &'s mut [Option<Value<'a>>]) -> Bindings<'s, 'a>
        requires { length meanings.old ≡ 256 }
        ensures { bindings_of result ≡ [] }
    {
        forget(meanings);
        Bindings {
            meanings,
            order: [0; 256],
            count: 0,
        }
    }

    // what a name means
    pub fn meaning(&self, name: u8) -> Option<Value<'a>>
        ensures { MatchOption result (found (bindings_of self.now) name [] ≡ []) (λ v. found (bindings_of self.now) name [] ≡ value_of v ∷ []) }
    {
        self.meanings[name as usize]
    }

    // a name means a value from now on
    pub fn bind(&mut self, name: u8, v: Value<'a>)
        ensures { bindings_of self.new ≡ rebound (bindings_of self.old) name (value_of v.entry) }
    {
        let k = name as usize;
        if let None = self.meanings[k] {
            self.order[self.count] = name;
            self.meanings[k] = Some(v);
            self.count += 1;
        } else {
            self.meanings[k] = Some(v);
        }
    }
}
