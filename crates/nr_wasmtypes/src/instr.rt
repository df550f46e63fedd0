//! The tree of instructions.

ghost use Rattle.std.specs.Prelude.{◌≡◌, IfOk};
ghost use Rattle.nr_wasmtypes.specs.Code.{Code, Block, Loop, Choice, code_of, put};

use crate::labels::Labels;
use std::alloc::{AllocError, Global};

/// The type of a value.
#[derive(Clone, Copy, Debug, PartialEq, Eq)]
pub enum ValType {
    I32,
    I64,
}

/// An operation on two numbers of a type that gives a third, in the order of the opcodes.
#[derive(Clone, Copy, Debug, PartialEq, Eq)]
pub enum Arith {
    Add,
    Sub,
    Mul,
    DivS,
    DivU,
    RemS,
    RemU,
    And,
    Or,
    Xor,
    Shl,
    ShrS,
    ShrU,
    Rotl,
    Rotr,
}

/// A comparison of two numbers of a type, in the order of the opcodes.
#[derive(Clone, Copy, Debug, PartialEq, Eq)]
pub enum Compare {
    Equal,
    NotEqual,
    LtS,
    LtU,
    GtS,
    GtU,
    LeS,
    LeU,
    GeS,
    GeU,
}

/// A count of bits of a number, in the order of the opcodes.
#[derive(Clone, Copy, Debug, PartialEq, Eq)]
pub enum Count {
    Clz,
    Ctz,
    Popcnt,
}

/// A change of a number's type.
#[derive(Clone, Copy, Debug, PartialEq, Eq)]
pub enum Convert {
    Wrap,
    ExtendS,
    ExtendU,
}

/// What is read from memory, and how it is made a number, in the order of the opcodes.
#[derive(Clone, Copy, Debug, PartialEq, Eq)]
pub enum Load {
    Full32,
    Full64,
    Signed8To32,
    Unsigned8To32,
    Signed16To32,
    Unsigned16To32,
    Signed8To64,
    Unsigned8To64,
    Signed16To64,
    Unsigned16To64,
    Signed32To64,
    Unsigned32To64,
}

/// How much of a number is written to memory, in the order of the opcodes.
#[derive(Clone, Copy, Debug, PartialEq, Eq)]
pub enum Store {
    Full32,
    Full64,
    Low8Of32,
    Low16Of32,
    Low8Of64,
    Low16Of64,
    Low32Of64,
}

/// An instruction that holds no others: a variant for each kind of operands.
#[derive(Debug, Drop)]
pub enum Plain {
    Unreachable,
    Nop,
    Br(u32),
    BrIf(u32),
    BrTable(Labels),
    Return,
    Call(u32),
    CallIndirect(u32),
    Drop,
    Select,
    LocalGet(u32),
    LocalSet(u32),
    LocalTee(u32),
    GlobalGet(u32),
    GlobalSet(u32),
    /// What, the power of two of the alignment, and the offset.
    Load(Load, u8, u32),
    Store(Store, u8, u32),
    MemorySize,
    MemoryGrow,
    Const32(u32),
    Const64(u64),
    IsZero(ValType),
    Count(ValType, Count),
    Compare(ValType, Compare),
    Arith(ValType, Arith),
    Convert(Convert),
}

/// An instruction. Contracts see a list of them as `code_of` that list.
#[derive(Debug, Drop)]
pub enum Instr {
    Plain(Plain),
    Block(Option<ValType>, Box<Vec<Instr>>),
    Loop(Option<ValType>, Box<Vec<Instr>>),
    If(Option<ValType>, Box<(Vec<Instr>, Vec<Instr>)>),
}

impl Instr {
    /// A block, with its result and its body.
    ///
    /// # Errors
    ///
    /// Where memory ran out.
    #[tactic(auto, using(crate::proofs::Levels::put_block_at))]
    pub fn block(
        alloc: Global,
        result_type: Option<ValType>,
        body: Vec<Instr>,
    ) -> Result<Instr, AllocError>
        ensures { IfOk result (λ i. (rest : Code) → put i rest ≡ Block result_type (code_of body.items) rest) }
    {
        let body = Box::new(alloc, body)?;
        Ok(Instr::Block(result_type, body))
    }

    /// A loop, with its result and its body.
    ///
    /// # Errors
    ///
    /// Where memory ran out.
    #[tactic(auto, using(crate::proofs::Levels::put_loop_at))]
    pub fn repeat(
        alloc: Global,
        result_type: Option<ValType>,
        body: Vec<Instr>,
    ) -> Result<Instr, AllocError>
        ensures { IfOk result (λ i. (rest : Code) → put i rest ≡ Loop result_type (code_of body.items) rest) }
    {
        let body = Box::new(alloc, body)?;
        Ok(Instr::Loop(result_type, body))
    }

    /// A choice, with its result and its two sides.
    ///
    /// # Errors
    ///
    /// Where memory ran out.
    #[tactic(auto, using(crate::proofs::Levels::put_if_at))]
    pub fn choice(
        alloc: Global,
        result_type: Option<ValType>,
        one: Vec<Instr>,
        other: Vec<Instr>,
    ) -> Result<Instr, AllocError>
        ensures { IfOk result (λ i. (rest : Code)
            → put i rest ≡ Choice result_type (code_of one.items) (code_of other.items) rest) }
    {
        let arms = Box::new(alloc, (one, other))?;
        Ok(Instr::If(result_type, arms))
    }
}
