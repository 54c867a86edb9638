// Stacks of a fixed capacity, inside of the value itself: nothing is allocated, and a push onto a full one is refused.
//
//     items | 0 | 1 | .. | len - 1 = the top | as it was |    N places
//
// What a stack holds is said from its top down (`top_down` of specs/Contents.antt): a push is one item more in front.
#![tactic(auto)]

ghost use Rattle.std.specs.Prelude.{◌≤◌};

mod counting;
mod methods;

// At most `N` items.
#[derive(Drop)]
pub struct Stack<T, const N: usize> {
    items: [T; N],
    len: usize,
    ghost within: { len ≤ N },
}

// There is no room for one more item.
#[derive(Clone, Copy, Debug, PartialEq, Eq)]
pub struct Full;
