//! Does one operation of a store many times over a store of a given size.
//!
//! The words are STORE, OPERATION, KEYS and TURNS. STORE is `plain` or `trie`. `fill` does nothing
//! more than fill the store. The others compute the root behind that; then `get`, `set`, `remove`,
//! `keep`, `back` and `root` are done TURNS times; `change` changes one value and computes the root,
//! TURNS times, and `working` a thousand values; `behind` sets fifty thousand values behind a
//! checkpoint and takes them back, TURNS times. `nested` fills the store with the keys `a`, `aa` and
//! so on, and computes the root TURNS times behind the first one. A script outside measures the time. It prints how
//! many turns were done; other words end it with status 1, and want of memory with status 7.
//!
//! The words `module FILE TURNS` decode and validate the module in a file TURNS times, and print
//! whether it was valid each time. The words `machine FILE METHOD TURNS` decode it and run its method
//! TURNS times, and print how many instructions ran in all.
//!
//! The words `tree root ITEMS TURNS` and `tree proof ITEMS TURNS` make the root of a chunk that sent so many receipts,
//! or the proof of the one in the middle, TURNS times, and print how many turns were done.
#![tactic(auto)]

mod machine;
mod module;
mod stores;
mod tree;

use nr_bytes::words_of;
use std::alloc::Global;
use std::process::ExitCode;
use std::rt::Files;

/// The file and the turns that the words ask for.
fn module_of(words: &[String]) -> Option<(&str, u32)> {
    match words {
        [word, file, turns] if word.as_str() == "module" => {
            Some((file.as_str(), turns.parse::<u32>().ok()?))
        }
        _ => None,
    }
}

fn check_module<R: Files + Print>(rt: &R, alloc: Global, file: &str, turns: u32) -> ExitCode {
    let Some(all) = module::check(rt, alloc, file, turns) else {
        return ExitCode::from(1);
    };
    let _ = println!(rt; "{all}");
    ExitCode::from(0)
}

/// The file, the method and the turns that the words ask for.
fn machine_of(words: &[String]) -> Option<(&str, &str, u32)> {
    match words {
        [word, file, method, turns] if word.as_str() == "machine" => {
            Some((file.as_str(), method.as_str(), turns.parse::<u32>().ok()?))
        }
        _ => None,
    }
}

fn run_machine<R: Files + Print>(
    rt: &R,
    alloc: Global,
    file: &str,
    method: &str,
    turns: u32,
) -> ExitCode {
    let Some(instructions) = machine::run(rt, alloc, file, method, turns) else {
        return ExitCode::from(1);
    };
    let _ = println!(rt; "{instructions}");
    ExitCode::from(0)
}

fn make_tree<R: Print>(rt: &R, alloc: Global, task: tree::Task) -> ExitCode {
    if tree::run(alloc, task).is_err() {
        return ExitCode::from(7);
    }
    let turns = task.turns;
    let _ = println!(rt; "{turns}");
    ExitCode::from(0)
}

fn main(rt: HostRuntime) -> ExitCode {
    let Ok(words) = words_of(&rt, rt.alloc()) else {
        return ExitCode::from(1);
    };
    if let Some((file, turns)) = module_of(&words) {
        return check_module(&rt, rt.alloc(), file, turns);
    }
    if let Some((file, method, turns)) = machine_of(&words) {
        return run_machine(&rt, rt.alloc(), file, method, turns);
    }
    if let Some(task) = tree::task_of(&words) {
        return make_tree(&rt, rt.alloc(), task);
    }
    let Some(task) = stores::task_of(&words) else {
        return ExitCode::from(1);
    };
    if stores::run(rt.alloc(), task).is_err() {
        return ExitCode::from(7);
    }
    let turns = task.turns;
    let _ = println!(rt; "{turns}");
    ExitCode::from(0)
}
