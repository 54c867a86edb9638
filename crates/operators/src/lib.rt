// What operators do, and a step of the machine.
//
// In: a machine (crate machine), a path that is being built, and the machine's own frames. Out: at
// each step an event or a fault. Each operator is one function whose contract is the written
// machine's `operate`: it looks at its operands from the top down, refuses in the order of the
// definitions, and changes the machine only when nothing is refused any more.
//
// arithmetic, operands, calling, drawing, graphics: the operators. perform: which does what. stepping: a step.
#![tactic(auto)]

mod arithmetic;
mod calling;
mod drawing;
mod graphics;
mod operands;
mod perform;
pub mod stepping;
