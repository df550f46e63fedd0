//! Modules that are valid, and the first breach of others.

use crate::running::list;
use nr_bytes::{List, Text};
use nr_config::Config;
use nr_wasmtypes::{
    Arith, FuncBody, FuncType, Import, ImportKind, Instr, Limits, Load, Locals, Module, Plain,
    ValType,
};
use nr_wasmvalid::{ValidFault, validate};
use std::alloc::{AllocError, Global};

/// Types in runs of one type.
fn spread(alloc: Global, runs: &[(u32, ValType)]) -> Result<List<ValType>, AllocError> {
    let mut types = Vec::new(alloc);
    for (count, kind) in runs {
        for _ in 0..*count {
            types.push(*kind)?;
        }
    }
    Ok(List::of(types))
}

/// A module with one function, which has no parameters.
fn module_of(alloc: Global, kind: Option<ValType>, code: Vec<Instr>) -> Result<Module, AllocError> {
    module_with(
        alloc,
        list(alloc),
        kind,
        FuncBody::of(Locals::new(alloc), code),
    )
}

/// A module with one function.
fn module_with(
    alloc: Global,
    params: List<ValType>,
    kind: Option<ValType>,
    body: FuncBody,
) -> Result<Module, AllocError> {
    let mut types = Vec::new(alloc);
    types.push(FuncType {
        params,
        result: kind,
    })?;
    let mut funcs = Vec::new(alloc);
    funcs.push(0)?;
    let mut bodies = Vec::new(alloc);
    bodies.push(body)?;
    Ok(Module {
        types: List::of(types),
        imports: list(alloc),
        funcs: List::of(funcs),
        tables: list(alloc),
        memories: list(alloc),
        globals: list(alloc),
        exports: list(alloc),
        elements: list(alloc),
        bodies: List::of(bodies),
        segments: list(alloc),
    })
}

fn breach(alloc: Global, module: Module) -> Option<ValidFault> {
    match validate(alloc, module, &Config::free()) {
        Ok(_) => None,
        Err(fault) => Some(fault),
    }
}

fn plain(alloc: Global, items: Vec<Plain>) -> Result<Vec<Instr>, AllocError> {
    let mut code = Vec::new(alloc);
    for item in items {
        code.push(Instr::Plain(item))?;
    }
    Ok(code)
}

#[test]
fn a_body_has_the_type_of_its_function(rt: HostRuntime) -> Result<(), AllocError> {
    let alloc = rt.alloc();
    let sum = vec![in alloc;
        Plain::Const32(1),
        Plain::Const32(2),
        Plain::Arith(ValType::I32, Arith::Add),
    ]?;
    let module = module_of(alloc, Some(ValType::I32), plain(alloc, sum)?)?;
    assert!(rt; breach(alloc, module) == None);
    let module = module_of(
        alloc,
        Some(ValType::I32),
        plain(alloc, vec![in alloc; Plain::Nop]?)?,
    )?;
    assert!(rt; breach(alloc, module) == Some(ValidFault::Types { func: 0, place: 1 }));
    let read = vec![in alloc;
        Plain::Const32(1),
        Plain::Load(Load::Full32, 2, 0),
        Plain::Drop,
    ]?;
    let module = module_of(alloc, None, plain(alloc, read)?)?;
    assert!(rt; breach(alloc, module) == Some(ValidFault::Index { func: 0, place: 1 }));
    Ok(())
}

/// A block begins without operands, a choice with a result has two sides, and a branch stays within
/// its function.
#[test]
fn places_count_instructions(rt: HostRuntime) -> Result<(), AllocError> {
    let alloc = rt.alloc();
    let mut code = plain(alloc, vec![in alloc; Plain::Const32(1)]?)?;
    let body = plain(alloc, vec![in alloc; Plain::Drop]?)?;
    code.push(Instr::block(alloc, None, body)?)?;
    let module = module_of(alloc, None, code)?;
    assert!(rt; breach(alloc, module) == Some(ValidFault::Types { func: 0, place: 2 }));
    let mut code = plain(alloc, vec![in alloc; Plain::Const32(1)]?)?;
    let one = plain(alloc, vec![in alloc; Plain::Const64(1)]?)?;
    code.push(Instr::choice(alloc, Some(ValType::I64), one, Vec::new(alloc))?)?;
    let module = module_of(alloc, Some(ValType::I64), code)?;
    assert!(rt; breach(alloc, module) == Some(ValidFault::Types { func: 0, place: 3 }));
    let mut code = Vec::new(alloc);
    let body = plain(alloc, vec![in alloc; Plain::Br(2)]?)?;
    code.push(Instr::repeat(alloc, None, body)?)?;
    let module = module_of(alloc, None, code)?;
    assert!(rt; breach(alloc, module) == Some(ValidFault::Label { func: 0, place: 1 }));
    Ok(())
}

/// `block_index` takes nothing and gives an i64. Functions of the host come first in numbers.
#[test]
fn functions_of_the_host_have_their_types(rt: HostRuntime) -> Result<(), AllocError> {
    let alloc = rt.alloc();
    for kind in [ValType::I64, ValType::I32] {
        let code = plain(alloc, vec![in alloc; Plain::Call(0), Plain::Br(1)]?)?;
        let mut module = module_of(alloc, Some(kind), code)?;
        module.imports.vec_mut().push(Import {
            module: Text::of(String::from_str(alloc, "env")?),
            name: Text::of(String::from_str(alloc, "block_index")?),
            kind: ImportKind::Func(0),
        })?;
        let wanted = match kind {
            ValType::I64 => ValidFault::Label { func: 1, place: 1 },
            ValType::I32 => ValidFault::Import {
                func: u32::MAX,
                place: 0,
            },
        };
        assert!(rt; breach(alloc, module) == Some(wanted));
    }
    Ok(())
}

/// How a function with one parameter, an i64, and 49,999 locals breaks.
fn among_many(
    alloc: Global,
    kind: Option<ValType>,
    code: Vec<Plain>,
) -> Result<Option<ValidFault>, AllocError> {
    let runs = [
        (20_000, ValType::I32),
        (1, ValType::I64),
        (0, ValType::I32),
        (9_999, ValType::I64),
        (19_999, ValType::I32),
    ];
    let mut locals = Locals::new(alloc);
    for (count, local) in runs {
        locals.add(count, local)?;
    }
    let body = FuncBody::of(locals, plain(alloc, code)?);
    let params = spread(alloc, &[(1, ValType::I64)])?;
    Ok(breach(alloc, module_with(alloc, params, kind, body)?))
}

/// The parameter, and the first and the last local of each run.
#[test]
fn locals_of_many_runs_have_their_types(rt: HostRuntime) -> Result<(), AllocError> {
    let alloc = rt.alloc();
    let ends = [
        (0, ValType::I64),
        (1, ValType::I32),
        (20_000, ValType::I32),
        (20_001, ValType::I64),
        (20_002, ValType::I64),
        (30_000, ValType::I64),
        (30_001, ValType::I32),
        (49_999, ValType::I32),
    ];
    for (local, kind) in ends {
        for other in [ValType::I32, ValType::I64] {
            let wanted = if kind == other {
                None
            } else {
                Some(ValidFault::Types { func: 0, place: 1 })
            };
            let number = match other {
                ValType::I32 => Plain::Const32(0),
                ValType::I64 => Plain::Const64(0),
            };
            let put = vec![in alloc; number, Plain::LocalTee(local), Plain::LocalSet(local)]?;
            assert!(rt; among_many(alloc, None, put)? == wanted);
            let get = vec![in alloc; Plain::LocalGet(local)]?;
            assert!(rt; among_many(alloc, Some(other), get)? == wanted);
        }
    }
    let past = vec![in alloc; Plain::Nop, Plain::LocalGet(50_000), Plain::Drop]?;
    assert!(rt; among_many(alloc, None, past)? == Some(ValidFault::Index { func: 0, place: 1 }));
    Ok(())
}

/// How a function without parameters breaks, beside one with an i32 and 9,999 i64 as parameters and an
/// i64 as result, which stands in a table.
fn beside_many(alloc: Global, code: Vec<Plain>) -> Result<Option<ValidFault>, AllocError> {
    let mut module = module_of(alloc, None, plain(alloc, code)?)?;
    module.types.vec_mut().push(FuncType {
        params: spread(alloc, &[(1, ValType::I32), (9_999, ValType::I64)])?,
        result: Some(ValType::I64),
    })?;
    module.funcs.vec_mut().push(1)?;
    let other = plain(alloc, vec![in alloc; Plain::LocalGet(1)]?)?;
    module
        .bodies
        .vec_mut()
        .push(FuncBody::of(Locals::new(alloc), other))?;
    module.tables.vec_mut().push(Limits {
        least: 1,
        most: None,
    })?;
    Ok(breach(alloc, module))
}

/// Behind a place that is never reached a call finds its operands, but those that stand are of its types.
#[test]
fn calls_that_are_never_reached_take_what_stands(rt: HostRuntime) -> Result<(), AllocError> {
    let alloc = rt.alloc();
    let none = vec![in alloc;
        Plain::Unreachable,
        Plain::Call(1),
        Plain::Call(1),
        Plain::Drop,
    ]?;
    assert!(rt; beside_many(alloc, none)? == None);
    let wrong = vec![in alloc;
        Plain::Unreachable,
        Plain::Const32(1),
        Plain::Call(1),
        Plain::Drop,
    ]?;
    let at_two = Some(ValidFault::Types { func: 0, place: 2 });
    assert!(rt; beside_many(alloc, wrong)? == at_two);
    let below = vec![in alloc;
        Plain::Unreachable,
        Plain::Const32(1),
        Plain::Const64(1),
        Plain::Call(1),
        Plain::Drop,
    ]?;
    let at_three = Some(ValidFault::Types { func: 0, place: 3 });
    assert!(rt; beside_many(alloc, below)? == at_three);
    let reached = vec![in alloc; Plain::Nop, Plain::Const64(1), Plain::Call(1), Plain::Drop]?;
    assert!(rt; beside_many(alloc, reached)? == at_two);
    Ok(())
}

/// The same by the table, whose number is taken first.
#[test]
fn calls_by_the_table_take_what_stands(rt: HostRuntime) -> Result<(), AllocError> {
    let alloc = rt.alloc();
    let by_table = vec![in alloc;
        Plain::Unreachable,
        Plain::CallIndirect(1),
        Plain::Const32(0),
        Plain::CallIndirect(1),
        Plain::Drop,
    ]?;
    assert!(rt; beside_many(alloc, by_table)? == None);
    let wrong = vec![in alloc;
        Plain::Unreachable,
        Plain::Const32(1),
        Plain::Const32(0),
        Plain::CallIndirect(1),
        Plain::Drop,
    ]?;
    assert!(rt; beside_many(alloc, wrong)? == Some(ValidFault::Types { func: 0, place: 3 }));
    Ok(())
}

/// A block behind a place that is never reached begins with no operand, and none may stand below.
#[test]
fn a_block_that_is_never_reached_has_its_own_operands(rt: HostRuntime) -> Result<(), AllocError> {
    let alloc = rt.alloc();
    for (first, wanted) in [
        (Plain::Nop, Some(ValidFault::Types { func: 0, place: 3 })),
        (Plain::Unreachable, None),
    ] {
        let body = vec![in alloc; first, Plain::Arith(ValType::I32, Arith::Add), Plain::Drop]?;
        let mut code = plain(alloc, vec![in alloc; Plain::Unreachable]?)?;
        code.push(Instr::block(alloc, None, plain(alloc, body)?)?)?;
        let module = module_of(alloc, None, code)?;
        assert!(rt; breach(alloc, module) == wanted);
    }
    Ok(())
}
