// Programs of every form: what they are compiled to decides, on lists of outcomes, as they run.
ghost use Rattle.compiling.specs.Formed.{CompiledWithin};
ghost use Rattle.diagram.specs.Build.{in_use};

use crate::running::{Run, Value, no_names, run_expression};
use compiling::forming::Compiled;
use compiling::programs::compile_main;
use compiling::questions::compile_question;
use diagram::{MemoItem, Node, Table};
use language::outline::OutlinedProgram;
use language::unfolding::unfold_main;
use std::process::Abort;
use std::test::Fail;

// The value of a program's run, and whether it passes.
fn run_main(program: &[u8], outcomes: &[bool]) -> Option<(Value, bool)> {
    let unfolded = unfold_main(program).ok()?;
    let outlined = OutlinedProgram {
        program,
        outline: &unfolded.typed.outline,
    };
    let mut run = Run {
        outcomes,
        next: 0,
        passes: true,
    };
    let (value, _) = run_expression(&mut run, &outlined, outlined.main_part(), &no_names(), 4096)?;
    Some((value, run.passes))
}

// The list of this number: its first eight outcomes are the number's bits, so that 256 numbers have all of them.
fn outcomes_of(number: u32) -> [bool; 128] {
    let mut outcomes = [false; 128];
    let mut mixed = number;
    for (i, outcome) in outcomes.iter_mut().enumerate() {
        let bit = if i < 8 {
            number >> (i as u32)
        } else {
            mixed >> 16
        };
        *outcome = bit & 1 == 1;
        mixed = mixed.wrapping_mul(1664525).wrapping_add(1013904223);
    }
    outcomes
}

// Whether a value fits a pattern, leaf by leaf.
fn fits(value: &Value, pattern: &[u8]) -> bool {
    value
        .leaves
        .as_slice()
        .iter()
        .zip(pattern)
        .all(|(leaf, mark)| *mark == 2 || *leaf == (*mark == 1))
}

// The leaves and the evidence decide as the run says.
fn main_agrees(
    rt: &impl Abort,
    table: &Table,
    main: &Compiled,
    run: &(Value, bool),
    outcomes: &[bool],
)
    requires { CompiledWithin (in_use table.now) main.now }
{
    let (value, passes) = run;
    assert!(rt; table.decide(main.evidence, outcomes) == *passes);
    assert!(rt; main.value.leaves.len() == value.leaves.len());
    for (i, leaf) in main.value.leaves.as_slice().iter().enumerate() {
        let truth = value.leaves.as_slice().get(i).copied();
        assert!(rt; truth == Some(table.decide(*leaf, outcomes)));
    }
}

// A program's leaves and evidence, on all lists.
fn program_agrees(rt: &impl Abort, program: &[u8]) -> Result<(), Fail> {
    let mut nodes = [Node::BLANK; 2048];
    let mut memo = [MemoItem::BLANK; 512];
    let mut table = Table::new(&mut nodes, &mut memo);
    let unfolded = unfold_main(program)?;
    let outlined = OutlinedProgram {
        program,
        outline: &unfolded.typed.outline,
    };
    let model = compile_main(&mut table, &outlined)?;
    for number in 0..256u32 {
        let outcomes = outcomes_of(number);
        match run_main(program, &outcomes) {
            Some(run) => main_agrees(rt, &table, &model.main, &run, &outcomes),
            None => assert!(rt; false),
        }
    }
    Ok(())
}

// A question's reference, on all lists.
fn question_agrees(rt: &impl Abort, program: &[u8], pattern: &[u8]) -> Result<(), Fail> {
    let mut nodes = [Node::BLANK; 2048];
    let mut memo = [MemoItem::BLANK; 512];
    let mut table = Table::new(&mut nodes, &mut memo);
    let unfolded = unfold_main(program)?;
    let outlined = OutlinedProgram {
        program,
        outline: &unfolded.typed.outline,
    };
    let model = compile_main(&mut table, &outlined)?;
    let reference = compile_question(&mut table, &model.main, pattern)?;
    for number in 0..256u32 {
        let outcomes = outcomes_of(number);
        match run_main(program, &outcomes) {
            Some((value, passes)) => {
                let wanted = passes && fits(&value, pattern);
                assert!(rt; table.decide(reference, &outcomes) == wanted);
            }
            None => assert!(rt; false),
        }
    }
    Ok(())
}

// A program with so many leaves, and questions of each of them.
fn all_agrees(rt: &impl Abort, program: &[u8], leaves: usize) -> Result<(), Fail> {
    let leaves = leaves.min(16);
    let either = [2u8; 16];
    program_agrees(rt, program)?;
    question_agrees(rt, program, &either[..leaves])?;
    for leaf in 0..leaves {
        for mark in 0..2u8 {
            let mut pattern = either;
            pattern[leaf] = mark;
            question_agrees(rt, program, &pattern[..leaves])?;
        }
    }
    Ok(())
}

#[test]
fn worked_programs(rt: HostRuntime) -> Result<(), Fail> {
    let two = [0, 7, 5, 0, 7, 5, 1, 7, 6, 0, 1, 0xff, 1, 1, 7, 8, 2, 1, 0];
    let five = [0, 7, 5, 0, 7, 6, 0, 5, 1, 5, 2, 6, 1, 5, 3, 5, 4];
    let parity = [
        0, 7, 5, 0, 7, 5, 0, 7, 5, 0, 7, 6, 0, 6, 1, 1, 0xfe, 1, 0xff, 1, 1, 7, 6, 3, 6, 2, 1,
        0xfe, 1, 0xff, 1, 2, 7, 6, 4, 1, 0xfe, 1, 0xff, 7, 8, 5, 6, 0, 1, 0xff, 6, 1, 1, 0xff, 1,
        2,
    ];
    all_agrees(&rt, &two, 1)?;
    all_agrees(&rt, &five, 1)?;
    all_agrees(&rt, &parity, 1)?;
    all_agrees(&rt, &[0, 8, 0xfe], 1)
}

// A function whose flip is the second leaf where its argument is true, and is observed where it is not.
#[test]
fn functions_called_twice_and_in_arms(rt: HostRuntime) -> Result<(), Fail> {
    let twice = [
        1, 0, 0, 7, 5, 0, 6, 0, 1, 1, 8, 1, 7, 9, 0, 0xff, 7, 9, 0, 0xfe, 2, 0, 1,
    ];
    let in_arms = [
        1, 0, 0, 7, 5, 0, 6, 0, 1, 1, 8, 1, 7, 5, 1, 7, 6, 0, 9, 0, 0, 9, 0, 0xfe, 2, 1, 0,
    ];
    all_agrees(&rt, &twice, 2)?;
    all_agrees(&rt, &in_arms, 2)
}

// Pairs of pairs up to 16 leaves, and parts of pairs.
#[test]
fn nested_pairs(rt: HostRuntime) -> Result<(), Fail> {
    let wide = [
        0, 7, 5, 0, 7, 5, 1, 7, 2, 0, 1, 7, 2, 2, 2, 7, 2, 3, 3, 2, 4, 4,
    ];
    let parts = [
        0, 7, 5, 0, 7, 5, 1, 7, 2, 0, 1, 7, 2, 2, 0, 7, 3, 3, 7, 4, 4, 6, 5, 3, 3, 2, 5, 0,
    ];
    all_agrees(&rt, &wide, 16)?;
    all_agrees(&rt, &parts, 2)
}

// Whether an odd number of the last nine of 128 flips comes out yes: a let in the first part of each, a call that forgets what was
// so far, 119 times, and then one that turns it over.
#[test]
fn many_flips(rt: HostRuntime) -> Result<(), Fail> {
    let mut program = Vec::new(rt.alloc());
    program.extend_from_slice(&[
        2, 0, 0, 7, 5, 0, 6, 0, 6, 1, 1, 0xfe, 1, 0xff, 1, 1, 0, 0, 5, 0,
    ])?;
    for _i in 0..127 {
        program.push(7)?;
    }
    program.extend_from_slice(&[5, 0])?;
    for _i in 0..119 {
        program.extend_from_slice(&[9, 1, 0])?;
    }
    for _i in 0..8 {
        program.extend_from_slice(&[9, 0, 0])?;
    }
    all_agrees(&rt, program.as_slice(), 1)
}

// What was found of a program is kept while its bytes are changed: a flip, and then no command.
#[test]
fn found_while_bytes_change(rt: HostRuntime) -> Result<(), Fail> {
    let mut program = [0, 5, 0];
    let found = unfold_main(&program)?;
    program[1] = 10;
    assert!(rt; found.figures.flips == 1);
    assert!(rt; unfold_main(&program).is_err());
    Ok(())
}
