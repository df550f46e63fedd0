//! Modules and their parts.

use crate::instr::{Instr, ValType};
use crate::locals::Locals;
use nr_bytes::{Blob, List, Text};
use std::marker::Model;

/// The type of a function: its parameters in order, and at most one result.
#[derive(Debug, Drop)]
pub struct FuncType {
    pub params: List<ValType>,
    pub result: Option<ValType>,
}

impl FuncType {
    ghost use Rattle.std.specs.Prelude.{◌≡◌};
    ghost use Rattle.std.specs.Bool.{Decides};

    /// It is the other type.
    pub fn is(&self, other: &FuncType) -> bool
        ensures { Decides result (self.now ≡ other.now) }
    {
        self.params.inner() == other.params.inner() && self.result == other.result
    }
}

/// What is imported: a function, with the number of its type, or what no host of this project has.
#[derive(Clone, Copy, Debug, PartialEq, Eq)]
pub enum ImportKind {
    Func(u32),
    Table,
    Memory,
    Global,
}

/// An import, by the name of its module and its own.
#[derive(Debug, Drop)]
pub struct Import {
    pub module: Text,
    pub name: Text,
    pub kind: ImportKind,
}

/// The least size of a table or a memory, and the greatest where there is one: in entries, or in
/// pages of 64 KiB.
#[derive(Clone, Copy, Debug, PartialEq, Eq)]
pub struct Limits {
    pub least: u32,
    pub most: Option<u32>,
}

/// A constant expression: a number, or the value of a global.
#[derive(Clone, Copy, Debug, PartialEq, Eq)]
pub enum ConstExpr {
    I32(u32),
    I64(u64),
    Get(u32),
}

/// A global: its type, whether it may be assigned, and its first value.
#[derive(Clone, Copy, Debug, PartialEq, Eq)]
pub struct Global {
    pub kind: ValType,
    pub mutable: bool,
    pub init: ConstExpr,
}

/// What is exported.
#[derive(Clone, Copy, Debug, PartialEq, Eq)]
pub enum ExportKind {
    Func,
    Table,
    Memory,
    Global,
}

/// An export: its name, and the number of what it names among those of its kind.
#[derive(Debug, Drop)]
pub struct Export {
    pub name: Text,
    pub kind: ExportKind,
    pub index: u32,
}

/// Functions that are put into a table from an offset on.
#[derive(Debug, Drop)]
pub struct Element {
    pub table: u32,
    pub offset: ConstExpr,
    pub funcs: List<u32>,
}

/// Bytes that are put into a memory from an offset on.
#[derive(Debug, Drop)]
pub struct Segment {
    pub memory: u32,
    pub offset: ConstExpr,
    pub bytes: Blob,
}

/// A function's body: its locals behind the parameters, and its code. Contracts see the code as a
/// sequence.
#[derive(Debug, Drop)]
pub struct FuncBody {
    locals: Locals,
    code: Vec<Instr>,
}

impl Model for FuncBody {
    ghost use Rattle.nr_wasmtypes.specs.Body.{Body};
    ghost use Rattle.nr_wasmtypes.specs.Code.{code_of};
    ghost use Rattle.nr_wasmtypes.specs.Coding.{coded_code};
    ghost use Rattle.std.specs.Coded.{codes};
    ghost use Rattle.nr_wasmtypes.specs.contracts.instr.Plain as plain_type;
    ghost use Rattle.nr_wasmtypes.specs.contracts.instr.ValType as val_type;

    ghost Value = { Body };

    ghost coded = { Prim.hlevel (codes, coded_code, plain_type.the_row.coded, val_type.the_row.coded) };

    ghost view = { λ b. record { locals = b.locals; code = code_of b.code.items } };
}

impl FuncBody {
    ghost use Rattle.std.specs.Prelude.{◌≡◌};
    ghost use Rattle.nr_wasmtypes.specs.Code.{code_of};

    /// A body of these locals and this code.
    pub fn of(locals: Locals, code: Vec<Instr>) -> FuncBody
        ensures { result ≡ record { locals = locals; code = code_of code.items } }
    {
        FuncBody { locals, code }
    }

    /// Its locals behind the parameters.
    pub fn locals(&self) -> &Locals
        ensures { result.now ≡ self.now.locals }
    {
        &self.locals
    }

    /// Its code.
    pub fn code(&self) -> &[Instr]
        ensures { code_of result.now ≡ self.now.code }
    {
        &self.code
    }

    /// The vector of its code.
    pub fn code_vec(&self) -> &Vec<Instr>
        ensures { code_of result.now.items ≡ self.now.code }
    {
        &self.code
    }
}

/// A module, as it was read: its parts in the order of the sections that hold them. Functions are
/// numbered from the imported ones on; `funcs` holds the number of each other function's type, and
/// `bodies` its body.
#[derive(Debug, Drop)]
pub struct Module {
    pub types: List<FuncType>,
    pub imports: List<Import>,
    pub funcs: List<u32>,
    pub tables: List<Limits>,
    pub memories: List<Limits>,
    pub globals: List<Global>,
    pub exports: List<Export>,
    pub elements: List<Element>,
    pub bodies: List<FuncBody>,
    pub segments: List<Segment>,
}
