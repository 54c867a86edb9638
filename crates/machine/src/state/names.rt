ghost use Rattle.std.specs.Prelude.{◌≡◌, [], ◌∷◌, MatchOption};
ghost use Rattle.machine.specs.Machine.{with_names, found, rebound};
ghost use Rattle.machine.specs.Abstraction.{Past, state, names_of, value_of};

use super::{Machine, Value};
use crate::stage::Clipping;
use path::builder::Path;

impl<'s, 'a, S: Clipping> Machine<'s, 'a, S> {
    // what a name means
    pub fn meaning(&self, name: u8) -> Option<Value<'a>>
        ensures { MatchOption result (found (names_of self.now) name [] ≡ []) (λ v. found (names_of self.now) name [] ≡ value_of v ∷ []) }
    {
        self.names.meaning(name)
    }

    // a name means a value from now on
    pub fn bind(&mut self, name: u8, v: Value<'a>)
        ensures { (p : Path) (t : Past) → state self.new p t ≡ with_names (state self.old p t) (rebound (names_of self.old) name (value_of v.entry)) }
    {
        self.names.bind(name, v);
    }
}
