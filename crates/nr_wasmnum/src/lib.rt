//! The integer operations of WebAssembly, on numbers of either type. Each is defined on every `u64`: an
//! operand of the type i32 counts modulo 2^32, and a result of that type is below 2^32. No call takes
//! memory.
#![tactic(auto)]

mod arithmetic;
mod comparison;
mod conversion;
mod counting;
mod fault;
mod operand;
mod operation;

pub use arithmetic::arith;
pub use comparison::{compare, is_zero};
pub use conversion::{convert, extend_load};
pub use counting::count_bits;
pub use fault::NumFault;
pub use operation::{BinOp, UnOp, binary, unary};
