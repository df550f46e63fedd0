//! Small modules, run over a host that only counts gas. The values are the standard's.

use nr_bytes::{List, Text};
use nr_config::Config;
use nr_wasmexec::{Gauge, Machine, RunStop};
use nr_wasmtypes::{
    Arith, Compare, Export, ExportKind, FuncBody, FuncType, Instr, Limits, Locals, Module, Plain,
    ValType,
};
use nr_wasmvalid::validate;
use std::alloc::{AllocError, Global};

/// An empty list.
pub(crate) fn list<T>(alloc: Global) -> List<T> {
    List::of(Vec::new(alloc))
}

/// A module whose one function takes and leaves nothing, has a memory of one page that may have
/// three, and is exported as `main`.
fn module_of(alloc: Global, code: Vec<Instr>) -> Result<Module, AllocError> {
    Ok(Module {
        types: List::of(vec![in alloc;
            FuncType {
                params: list(alloc),
                result: None
            },
        ]?),
        imports: list(alloc),
        funcs: List::of(vec![in alloc; 0]?),
        tables: list(alloc),
        memories: List::of(vec![in alloc;
            Limits {
                least: 1,
                most: Some(3)
            },
        ]?),
        globals: list(alloc),
        exports: List::of(vec![in alloc;
            Export {
                name: Text::of(String::from_str(alloc, "main")?),
                kind: ExportKind::Func,
                index: 0,
            },
        ]?),
        elements: list(alloc),
        bodies: List::of(vec![in alloc; FuncBody::of(Locals::new(alloc), code)]?),
        segments: list(alloc),
    })
}

/// How the run of some code ends, and the gas that it burnt.
fn end_of(alloc: Global, code: Vec<Instr>, gas: u128) -> Option<(Result<(), RunStop>, u128)> {
    let config = Config::free();
    let module = module_of(alloc, code).ok()?;
    let valid = validate(alloc, module, &config).ok()?;
    let mut machine = Machine::new(alloc, valid, &config).ok()?;
    let func = machine.method(b"main")?;
    let mut host = Gauge { gas };
    let end = machine.run(&mut host, func);
    Some((end, gas.wrapping_sub(host.gas)))
}

fn plain(alloc: Global, items: Vec<Plain>) -> Result<Vec<Instr>, AllocError> {
    items
        .into_iter()
        .map(|item| Instr::Plain(item))
        .collect(alloc)
}

#[test]
fn each_instruction_is_paid_for(rt: HostRuntime) -> Result<(), AllocError> {
    let alloc = rt.alloc();
    let code = plain(alloc, vec![in alloc; Plain::Const32(1), Plain::Drop]?)?;
    assert!(rt; end_of(alloc, code, 1000) == Some((Ok(()), 2)));
    let body = plain(alloc, vec![in alloc; Plain::Br(0)]?)?;
    let code = vec![in alloc; Instr::repeat(alloc, None, body)?]?;
    assert!(rt; end_of(alloc, code, 1000) == Some((Err(RunStop::GasExceeded), 1000)));
    Ok(())
}

/// A thousand frames are allowed.
#[test]
fn call_of_itself_is_too_deep(rt: HostRuntime) -> Result<(), AllocError> {
    let alloc = rt.alloc();
    let code = plain(alloc, vec![in alloc; Plain::Call(0)]?)?;
    assert!(rt; end_of(alloc, code, 5000) == Some((Err(RunStop::Trap { kind: 8 }), 1000)));
    Ok(())
}

#[test]
fn quotients_trap(rt: HostRuntime) -> Result<(), AllocError> {
    let alloc = rt.alloc();
    for (second, kind) in [(0xffff_ffff, 4), (0, 3)] {
        let items = vec![in alloc;
            Plain::Const32(0x8000_0000),
            Plain::Const32(second),
            Plain::Arith(ValType::I32, Arith::DivS),
            Plain::Drop,
        ]?;
        let end = end_of(alloc, plain(alloc, items)?, 1000);
        assert!(rt; end == Some((Err(RunStop::Trap { kind }), 3)));
    }
    Ok(())
}

/// Two pages may be added to one, and no third.
#[test]
fn memory_grows_to_its_bound(rt: HostRuntime) -> Result<(), AllocError> {
    let alloc = rt.alloc();
    for (pages, wanted) in [(2, 1), (3, 0xffff_ffff)] {
        let mut code = plain(
            alloc,
            vec![in alloc;
                Plain::Const32(pages),
                Plain::MemoryGrow,
                Plain::Const32(wanted),
                Plain::Compare(ValType::I32, Compare::Equal),
            ]?,
        )?;
        let wrong = plain(alloc, vec![in alloc; Plain::Unreachable]?)?;
        code.push(Instr::choice(alloc, None, Vec::new(alloc), wrong)?)?;
        assert!(rt; end_of(alloc, code, 1000) == Some((Ok(()), 5)));
    }
    Ok(())
}
