// Programs at and just past each limit, with what inspecting them finds: a line a case.
#![tactic(auto)]

use language::fault::Fault;
use language::inspecting::inspect;
use std::alloc::{AllocError, Global};

// Appends `part` to a program `times` times.
fn append(program: &mut Vec<u8>, part: &[u8], times: usize) -> Result<(), AllocError> {
    for _ in 0..times {
        program.extend_from_slice(part)?;
    }
    Ok(())
}

// A program of these bytes.
fn of(heap: Global, bytes: &[u8]) -> Result<Vec<u8>, AllocError> {
    let mut program = Vec::new(heap);
    append(&mut program, bytes, 1)?;
    Ok(program)
}

// `lets` lets, each the first part of the one before, and one `part` more than there are lets.
fn nested(heap: Global, lets: usize, part: &[u8]) -> Result<Vec<u8>, AllocError> {
    let mut program = of(heap, &[0])?;
    append(&mut program, &[7], lets)?;
    append(&mut program, part, lets)?;
    append(&mut program, part, 1)?;
    Ok(program)
}

// As many names in scope as there are lets, each in the second part of the one before.
fn named(heap: Global, lets: usize) -> Result<Vec<u8>, AllocError> {
    let mut program = of(heap, &[0])?;
    append(&mut program, &[7, 1, 0xff], lets)?;
    append(&mut program, &[1, 0], 1)?;
    Ok(program)
}

// A function whose parameter has `leaves` leaves, and that gives true.
fn wide_type(heap: Global, leaves: u8) -> Result<Vec<u8>, AllocError> {
    let mut program = of(heap, &[1])?;
    append(&mut program, &[1, 0], (leaves as usize).saturating_sub(1))?;
    append(&mut program, &[0, 0, 1, 0xff, 1, 0xfe], 1)?;
    Ok(program)
}

// Functions that give their parameter, and a main expression that is true.
fn functions(heap: Global, count: u8) -> Result<Vec<u8>, AllocError> {
    let mut program = of(heap, &[count])?;
    append(&mut program, &[0, 0, 1, 0], count as usize)?;
    append(&mut program, &[1, 0xff], 1)?;
    Ok(program)
}

// Functions of which each calls the one before it `calls` + 1 times, the first one aside, and then `main`.
fn calling(heap: Global, count: u8, calls: usize, main: &[u8]) -> Result<Vec<u8>, AllocError> {
    let mut program = of(heap, &[count, 0, 0, 1, 0])?;
    for before in 0..count.saturating_sub(1) {
        append(&mut program, &[0, 0], 1)?;
        append(&mut program, &[7], calls)?;
        append(&mut program, &[9, before, 0], calls)?;
        append(&mut program, &[9, before, 0], 1)?;
    }
    append(&mut program, main, 1)?;
    Ok(program)
}

// Prints what inspecting the program finds.
fn report(rt: &HostRuntime, name: &str, program: &[u8]) -> anyhow::Result<()> {
    match inspect(program) {
        Ok(found) => {
            let (size, flips) = (found.size, found.flips);
            println!(rt;
                "{name}: functions {} size {size} flips {flips} leaves {}",
                found.functions, found.leaves
            )?;
        }
        Err(fault) => println!(rt; "{name}: {}", fault.refusal())?,
    }
    Ok(())
}

fn flips_and_names(rt: &HostRuntime) -> anyhow::Result<()> {
    let heap = rt.alloc();
    report(rt, "128 flips", &nested(heap, 127, &[5, 0])?)?;
    report(rt, "129 flips", &nested(heap, 128, &[5, 0])?)?;
    report(rt, "32 names", &named(heap, 32)?)?;
    report(rt, "33 names", &named(heap, 33)?)?;
    Ok(())
}

fn types(rt: &HostRuntime) -> anyhow::Result<()> {
    let heap = rt.alloc();
    let pairs = [0, 7, 2, 0xfe, 0xff, 7, 2, 0, 0, 7, 2, 1, 1, 2, 2, 2];
    let wider = [
        0, 7, 2, 0xfe, 0xff, 7, 2, 0, 0, 7, 2, 1, 1, 7, 2, 2, 2, 2, 3, 0xff,
    ];
    report(rt, "type of 16 leaves", &wide_type(heap, 16)?)?;
    report(rt, "type of 17 leaves", &wide_type(heap, 17)?)?;
    report(rt, "pair of 16 leaves", &of(heap, &pairs)?)?;
    report(rt, "pair of 17 leaves", &of(heap, &wider)?)?;
    Ok(())
}

fn sizes(rt: &HostRuntime) -> anyhow::Result<()> {
    let heap = rt.alloc();
    report(
        rt,
        "size 4096",
        &calling(heap, 11, 1, &[7, 9, 10, 0xfe, 1, 0xfe])?,
    )?;
    report(
        rt,
        "size 4097",
        &calling(heap, 11, 1, &[7, 9, 10, 0xfe, 9, 0, 0xfe])?,
    )?;
    report(
        rt,
        "60 calls in each of 16",
        &calling(heap, 16, 60, &[9, 15, 0xfe])?,
    )?;
    report(rt, "16 functions", &functions(heap, 16)?)?;
    report(rt, "17 functions", &functions(heap, 17)?)?;
    Ok(())
}

fn lengths(rt: &HostRuntime) -> anyhow::Result<()> {
    let heap = rt.alloc();
    let mut deep = of(heap, &[0])?;
    append(&mut deep, &[7], 4095)?;
    report(rt, "4095 nested commands", &deep)?;
    append(&mut deep, &[7], 1)?;
    report(rt, "4097 bytes", &deep)?;
    report(rt, "1364 nested lets", &nested(heap, 1364, &[1, 0xff])?)?;
    Ok(())
}

fn main(rt: HostRuntime) -> anyhow::Result<()> {
    flips_and_names(&rt)?;
    types(&rt)?;
    sizes(&rt)?;
    lengths(&rt)
}
