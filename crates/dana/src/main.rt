// Reads a tree table from standard input and tells whether it passes, or the first rule broken. With the argument
// `code` it lists the words of a table that passes, one to a line: address, name, aux, node and operand. Its functions
// have no contracts, since none can say what a process is given and what a terminal takes.
#![tactic(auto)]

use checker::Program;
use code::{aux_of, decode, node_of, operand_of};
use std::env;
use std::io::Read;
use translate::translate;

// A refusal's number and place.
fn refuse(rt: &HostRuntime, told: (u8, usize)) -> anyhow::Result<()> {
    let (number, place) = told;
    println!(rt; "refused {number} {place}")?;
    Ok(())
}

// One word. Where it says no instruction, it is the entry of a function.
fn list_word(rt: &HostRuntime, address: usize, word: u64) -> anyhow::Result<()> {
    let aux = aux_of(word);
    let node = node_of(word);
    let operand = operand_of(word);
    match decode(word) {
        Some(instruction) => println!(rt; "{address} {instruction} {aux} {node} {operand}")?,
        None => println!(rt; "{address} entry {aux} {node} {operand}")?,
    }
    Ok(())
}

// The words of the program that is held.
fn list(rt: &HostRuntime, program: &Program) -> anyhow::Result<()> {
    let mut code = [0; 8224];
    match translate(program, &mut code) {
        Ok(words) => {
            for (address, word) in code.iter().take(words).enumerate() {
                list_word(rt, address, *word)?;
            }
            Ok(())
        }
        Err(fault) => refuse(rt, fault.told()),
    }
}

// Whether the first argument is `code`.
fn asks_for_code(rt: &HostRuntime) -> anyhow::Result<bool> {
    let mut args = env::args(rt)?;
    Ok(args.nth(1).is_some_and(|word| word.as_str() == "code"))
}

fn main(rt: HostRuntime) -> anyhow::Result<()> {
    let mut bytes = Vec::new(rt.alloc());
    rt.stdin().read_to_end(&mut bytes)?;
    let mut program = Program::new();
    match program.replace(bytes.as_slice()) {
        Err(fault) => refuse(&rt, fault.told()),
        Ok(_) if asks_for_code(&rt)? => list(&rt, &program),
        Ok(_) => {
            println!(rt; "passed")?;
            Ok(())
        }
    }
}
