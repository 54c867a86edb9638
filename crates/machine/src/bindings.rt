mod binding;

ghost use Rattle.std.specs.Prelude.{◌≡◌, ℕ, ◌+◌, ◌<◌, ◌≤◌, true, false, length, take, slice_index_or};
ghost use Rattle.machine.specs.Names.{flags, listed, distinct, unset};

use crate::state::Value;

// What names mean: a name's meaning stands at its number, if it is bound. `order` has the bound names as they were first bound:
// the code never asks for that order, the definitions have it. The meanings stand in the caller and `order` is no `Stack`, since
// a name gets its meaning and is counted at once, and a field of a struct with ghost fields is lent or written by itself.
#[derive(Drop)]
pub struct Bindings<'s, 'a> {
    meanings: &'s mut [Option<Value<'a>>],
    order: [u8; 256],
    count: usize,
    ghost meant: { length meanings.now ≡ 256 },
    // as many names are bound as have a meaning, each once
    ghost counted: { count + unset (flags meanings.now) ≡ 256 },
    ghost once: { distinct (take count order) ≡ true },
    ghost known: { ((k : ℕ) → k < 256 → slice_index_or (flags meanings.now) k false ≡ listed k (take count order)) },
}
