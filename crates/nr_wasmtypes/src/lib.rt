//! WebAssembly modules as values: what decoder, validator and machine share.
#![tactic(auto)]

mod exceeded;
mod host;
mod instr;
mod labels;
mod locals;
mod module;
mod opcode;
mod operations;

pub use exceeded::Exceeded;
pub use host::HostFn;
pub use instr::{Arith, Compare, Convert, Count, Instr, Load, Plain, Store, ValType};
pub use labels::Labels;
pub use locals::Locals;
pub use module::{
    ConstExpr, Element, Export, ExportKind, FuncBody, FuncType, Global, Import, ImportKind, Limits,
    Module, Segment,
};
pub use opcode::Op;
