// Reading: a program's bytes from left to right, to the first fault or to an outline.
ghost use Rattle.std.specs.Prelude.{◌≡◌, ◌+◌, ◌-◌, ◌<◌, ◌≤◌, [], length, IfOk};
ghost use Rattle.bounded.specs.Listed.{listed};
ghost use Rattle.language.specs.Grammar.{ByGrammar};
ghost use Rattle.language.specs.Outcomes.{Follows};
ghost use Rattle.language.specs.Outlines.{Coded, Outlined, Functions, Reads, Passes};
ghost use Rattle.language.specs.Reading.{narrow_from, expr_from, function_from, functions_from, tree_of};

use crate::command::Command;
use crate::fault::ReadFault;
pub use crate::outline::{FunctionOutline, MOST_BYTES, MOST_FUNCTIONS, Outline};
use crate::rest::Rest;
use crate::types::{MOST_LEAVES, TypeCode, read_leaves};
use bounded::Bounded;

// The type at the front, and what is left behind it.
fn read_type<'p>(part: Rest<'p>) -> Result<(TypeCode, Rest<'p>), ReadFault>
    ensures gives { Follows Coded part.entry.whole result (narrow_from part.entry.whole part.entry.bytes.now) }
    ensures shorter { IfOk result (λ x. length x.1.bytes.now < length part.entry.bytes.now) }
{
    let (leaves, rest) = read_leaves(part)?;
    if leaves > MOST_LEAVES {
        return Err(ReadFault::TooWide(part.place()));
    }
    let end = part.bytes.len() - rest.bytes.len();
    Ok((TypeCode::of(&part.bytes[0..end]), rest))
}

// What is left behind the expression at the front.
fn read_expression<'p>(part: Rest<'p>) -> Result<Rest<'p>, ReadFault>
    ensures gives { Passes part.entry.whole result (expr_from part.entry.whole part.entry.bytes.now) }
    ensures shorter { IfOk result (λ rest. length rest.bytes.now < length part.entry.bytes.now) }
{
    let (command, rest) = part.next_command()?;
    match command {
        Command::Simple(_) => Ok(rest),
        Command::If(_) | Command::Let => {
            let rest = read_expression(rest)?;
            read_expression(rest)
        }
    }
}

// The function at the front, and what is left behind it.
fn read_function<'p>(part: Rest<'p>) -> Result<(FunctionOutline, Rest<'p>), ReadFault>
    ensures gives { Follows (Outlined (part.entry.whole - length part.entry.bytes.now)) part.entry.whole result (function_from part.entry.whole part.entry.bytes.now) }
    ensures shorter { IfOk result (λ x. length x.1.bytes.now < length part.entry.bytes.now) }
{
    let (parameter, rest) = read_type(part)?;
    let (result, rest) = read_type(rest)?;
    let body = rest.place();
    let rest = read_expression(rest)?;
    let function = FunctionOutline {
        parameter,
        result,
        body,
    };
    Ok((function, rest))
}

// No function yet.
fn no_functions() -> Bounded<FunctionOutline, MOST_FUNCTIONS>
    ensures { listed result ≡ [] }
{
    Bounded::new(FunctionOutline {
        parameter: TypeCode::bool(),
        result: TypeCode::bool(),
        body: 0,
    })
}

// The `count` functions that stand at the front of all but the first byte of a program, and what is left behind them.
fn read_functions<'p>(
    part: Rest<'p>,
    count: usize,
) -> Result<(Bounded<FunctionOutline, MOST_FUNCTIONS>, Rest<'p>), ReadFault>
    requires whole { length part.bytes.now + 1 ≡ part.whole }
    requires count { count ≤ 16 }
    ensures gives { Follows Functions part.entry.whole result (functions_from part.entry.whole count part.entry.bytes.now) }
    ensures shorter { IfOk result (λ x. length x.1.bytes.now ≤ length part.entry.bytes.now) }
{
    let mut functions = no_functions();
    let mut rest = part;
    for _i in 0..count {
        let (function, following) = read_function(rest)?;
        functions.push(function);
        rest = following;
    }
    Ok((functions, rest))
}

// The outline of a program, or the first fault.
pub fn read(program: &[u8]) -> Result<Outline, ReadFault>
    ensures exact { Reads result (tree_of program.now) }
    ensures grammar { ByGrammar program.now result }
    ensures within { IfOk result (λ _. length program.now ≤ 4096) }
{
    if program.len() > MOST_BYTES {
        return Err(ReadFault::TooLong);
    }
    let [count, ..] = program else {
        return Err(ReadFault::Ends(program.len()));
    };
    let count = *count as usize;
    if count > MOST_FUNCTIONS {
        return Err(ReadFault::Unknown(0));
    }
    let (functions, rest) = read_functions(Rest::of(program, 1), count)?;
    let main = rest.place();
    let rest = read_expression(rest)?;
    if !rest.bytes.is_empty() {
        return Err(ReadFault::Trailing(rest.place()));
    }
    Ok(Outline { functions, main })
}
