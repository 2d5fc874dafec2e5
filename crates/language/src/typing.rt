// Typing: the type of each expression, to the first fault.
ghost use Rattle.std.specs.Prelude.{◌≡◌, ℕ, ◌+◌, ◌-◌, ◌<◌, ◌≤◌, List, [], ◌∷◌, ◌++◌, length, IfOk};
ghost use Rattle.bounded.specs.Listed.{listed};
ghost use Rattle.language.specs.Grammar.{Encodes};
ghost use Rattle.language.specs.Outlines.{Coded, AllCoded, Outlined, Callable, Outlines, Types, TypesPast, PartsTyped};
ghost use Rattle.language.specs.Syntax.{Ty, Expr, Function, Program, Proper, encode_expr, place_after};
ghost use Rattle.language.specs.Typing.{type_of_operand, bool_operand, pair_operand, call_type, checked_simple, check, checked_body, checked_bodies};
ghost use Rattle.language.specs.TypedPrograms.{OutlinesTyped, ByRules};
ghost use Rattle.language.specs.Unfolding.{typed_of};

use crate::command::{Command, Operand, Simple};
use crate::fault::TypeFault;
use crate::outline::{FunctionOutline, Outline, OutlinedProgram};
use crate::reading::read;
use crate::rest::Rest;
use crate::types::TypeCode;
use bounded::Bounded;

// The most names in scope.
pub const MOST_NAMES: usize = 32;

// The types of the names in scope, the outermost first.
type Scope = Bounded<TypeCode, MOST_NAMES>;

// No name in scope.
fn no_names() -> Scope
    ensures { listed result ≡ [] }
{
    Bounded::new(TypeCode::bool())
}

// The type of an operand of the command at a place. Scope and place are two parameters: a struct of both would be made anew for each command.
fn operand_type(scope: &Scope, operand: Operand, place: usize) -> Result<TypeCode, TypeFault>
    ensures { (Γ : List Ty) → AllCoded (listed scope.now) Γ → Types result (type_of_operand Γ place operand) }
{
    match operand {
        Operand::False | Operand::True => Ok(TypeCode::bool()),
        Operand::Name(name) => {
            let known = scope.as_slice().get(name as usize).copied();
            known.ok_or(TypeFault::OutOfScope(place))
        }
    }
}

// An operand that has to be Bool.
fn check_bool(scope: &Scope, operand: Operand, place: usize) -> Result<(), TypeFault>
    ensures { (Γ : List Ty) → AllCoded (listed scope.now) Γ → result ≡ bool_operand Γ place operand }
{
    let found = operand_type(scope, operand, place)?;
    if found != TypeCode::bool() {
        return Err(TypeFault::Mistyped(place));
    }
    Ok(())
}

// The types of the two parts of an operand that has to be a pair.
fn operand_parts(
    scope: &Scope,
    operand: Operand,
    place: usize,
) -> Result<(TypeCode, TypeCode), TypeFault>
    ensures { (Γ : List Ty) → AllCoded (listed scope.now) Γ → PartsTyped result (pair_operand Γ place operand) }
{
    let found = operand_type(scope, operand, place)?;
    found.parts().ok_or(TypeFault::Mistyped(place))
}

// The result type of a call of one of the functions that may be called.
fn check_call(
    functions: &[FunctionOutline],
    number: u8,
    operand: TypeCode,
    place: usize,
) -> Result<TypeCode, TypeFault>
    ensures { (Φ : List Function) (τ : Ty) → Callable functions.now Φ → Coded operand τ → Types result (call_type Φ place number τ) }
{
    let function = functions
        .get(number as usize)
        .ok_or(TypeFault::NoFunction(place))?;
    if operand != function.parameter {
        return Err(TypeFault::Mistyped(place));
    }
    Ok(function.result)
}

// The type of a command that no expression belongs to.
fn check_simple(
    functions: &[FunctionOutline],
    scope: &Scope,
    simple: Simple,
    place: usize,
) -> Result<TypeCode, TypeFault>
    ensures { (Φ : List Function) (Γ : List Ty) → Callable functions.now Φ → AllCoded (listed scope.now) Γ → Types result (checked_simple Φ Γ place simple) }
{
    match simple {
        Simple::Atom(a) => operand_type(scope, a, place),
        Simple::Pair(a, b) => {
            let first = operand_type(scope, a, place)?;
            let second = operand_type(scope, b, place)?;
            TypeCode::pair(&first, &second).ok_or(TypeFault::OverLimit(place))
        }
        Simple::First(a) => {
            let (first, _) = operand_parts(scope, a, place)?;
            Ok(first)
        }
        Simple::Second(a) => {
            let (_, second) = operand_parts(scope, a, place)?;
            Ok(second)
        }
        Simple::Flip(_) => Ok(TypeCode::bool()),
        Simple::Observe(a) => {
            check_bool(scope, a, place)?;
            Ok(TypeCode::bool())
        }
        Simple::Call(number, a) => {
            let operand = operand_type(scope, a, place)?;
            check_call(functions, number, operand, place)
        }
    }
}

// The type of the expression at the front, and what is left behind it.
fn check_expression<'p>(
    part: Rest<'p>,
    functions: &[FunctionOutline],
    scope: &Scope,
) -> Result<(TypeCode, Rest<'p>), TypeFault>
    ensures types { (Φ : List Function) (Γ : List Ty) (e : Expr) (end : List ℕ) → Callable functions.now Φ → AllCoded (listed scope.now) Γ → part.entry.bytes.now ≡ encode_expr e ++ end → Proper e → TypesPast end part.entry.whole result (check Φ Γ (part.entry.whole - length part.entry.bytes.now) e) }
    ensures shorter { IfOk result (λ x. length x.1.bytes.now < length part.entry.bytes.now) }
{
    let place = part.place();
    let (command, rest) = part.next_command()?;
    match command {
        Command::Simple(simple) => {
            let found = check_simple(functions, scope, simple, place)?;
            Ok((found, rest))
        }
        Command::If(guard) => {
            check_bool(scope, guard, place)?;
            let (first, rest) = check_expression(rest, functions, scope)?;
            let (second, rest) = check_expression(rest, functions, scope)?;
            if first != second {
                return Err(TypeFault::Mistyped(place));
            }
            Ok((second, rest))
        }
        Command::Let => {
            let (bound, rest) = check_expression(rest, functions, scope)?;
            if scope.is_full() {
                return Err(TypeFault::OverLimit(place));
            }
            let mut names = *scope;
            names.push(bound);
            check_expression(rest, functions, &names)
        }
    }
}

// Checks the body of a function that may call those before it: it has the type that the function promises.
fn check_body(
    outlined: &OutlinedProgram,
    callable: &[FunctionOutline],
    function: &FunctionOutline,
) -> Result<(), TypeFault>
    ensures { (p : Program) (before : List Function) (f : Function) (following : List Function) → Encodes outlined.now.program.now p → p.functions ≡ before ++ (f ∷ following) → Callable callable.now before → Outlined (place_after before) function.now f → result ≡ checked_body before f }
{
    let body = outlined.body_part(function);
    let mut scope = no_names();
    scope.push(function.parameter);
    let (found, _) = check_expression(body, callable, &scope)?;
    if found != function.result {
        return Err(TypeFault::Mistyped(function.body));
    }
    Ok(())
}

// Checks the bodies of all functions, in their order.
fn check_bodies(outlined: &OutlinedProgram) -> Result<(), TypeFault>
    ensures { (p : Program) → Encodes outlined.now.program.now p → Outlines outlined.now.outline.now p → result ≡ checked_bodies [] p.functions }
{
    let functions = outlined.outline.functions.as_slice();
    for (number, function) in functions.iter().enumerate() {
        check_body(outlined, &functions[..number], function)?;
    }
    Ok(())
}

// A program that was read and typed: its outline, and the type of its main expression.
#[derive(Clone, Copy)]
pub struct TypedOutline {
    pub outline: Outline,
    pub value: TypeCode,
}

// The outline of a program with the type of its main expression, or the first fault of reading and typing.
pub fn check_types(program: &[u8]) -> Result<TypedOutline, TypeFault>
    ensures exact { OutlinesTyped result (typed_of program.now) }
    ensures derived { ByRules program.now result }
    ensures within { IfOk result (λ _. length program.now ≤ 4096) }
{
    let outline = read(program)?;
    let outlined = OutlinedProgram {
        program,
        outline: &outline,
    };
    check_bodies(&outlined)?;
    let functions = outline.functions.as_slice();
    let (value, _) = check_expression(outlined.main_part(), functions, &no_names())?;
    Ok(TypedOutline { outline, value })
}
