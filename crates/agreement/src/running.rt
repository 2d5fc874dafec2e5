// Running a program on a list of outcomes, without a table: what the tests compare with.
ghost use Rattle.std.specs.Prelude.{◌≡◌, []};
ghost use Rattle.bounded.specs.Listed.{listed};

use bounded::Bounded;
use language::command::{Command, Operand, Simple};
use language::outline::OutlinedProgram;
use language::rest::Rest;
use language::types::TypeCode;

// A value: its type, and its leaves from left to right.
#[derive(Clone, Copy)]
pub(crate) struct Value {
    pub kind: TypeCode,
    pub leaves: Bounded<bool, 16>,
}

// The values of the names in scope.
pub(crate) type Scope = Bounded<Value, 32>;

// A run under way: the outcomes, the number of the next flip, and whether it passes so far.
#[derive(Drop)]
pub(crate) struct Run<'o> {
    pub outcomes: &'o [bool],
    pub next: usize,
    pub passes: bool,
}

impl Value {
    // A value with these leaves, as many as there is room for.
    fn of(kind: TypeCode, parts: &[bool]) -> Value {
        let mut leaves = Bounded::new(false);
        for part in parts {
            if !leaves.is_full() {
                leaves.push(*part);
            }
        }
        Value { kind, leaves }
    }

    pub(crate) fn of_bool(truth: bool) -> Value {
        Value::of(TypeCode::bool(), &[truth])
    }

    // Whether a Bool is true.
    pub(crate) fn holds(&self) -> bool {
        self.leaves.as_slice().first().copied().unwrap_or(false)
    }

    fn pair(first: &Value, second: &Value) -> Option<Value> {
        let kind = TypeCode::pair(&first.kind, &second.kind)?;
        let mut both = *first;
        both.kind = kind;
        for part in second.leaves.as_slice() {
            if both.leaves.is_full() {
                return None;
            }
            both.leaves.push(*part);
        }
        Some(both)
    }

    fn parts(&self) -> Option<(Value, Value)> {
        let (first, second) = self.kind.parts()?;
        let (before, after) = self.leaves.as_slice().split_at_checked(first.leaves())?;
        Some((Value::of(first, before), Value::of(second, after)))
    }
}

// A scope without names.
pub(crate) fn no_names() -> Scope
    ensures { listed result ≡ [] }
{
    Bounded::new(Value::of_bool(false))
}

// The value of an operand.
fn operand(scope: &Scope, operand: Operand) -> Option<Value> {
    match operand {
        Operand::False => Some(Value::of_bool(false)),
        Operand::True => Some(Value::of_bool(true)),
        Operand::Name(name) => scope.as_slice().get(name as usize).copied(),
    }
}

impl<'o> Run<'o> {
    // A flip: its outcome by its number.
    fn flip(&mut self) -> Value {
        let outcome = self.outcomes.get(self.next).copied().unwrap_or(false);
        self.next = self.next.saturating_add(1);
        Value::of_bool(outcome)
    }

    // Both arms have their flips; the chosen one's observations count.
    fn choose(&mut self, first_passes: bool, second_passes: bool, guard: bool) {
        self.passes = if guard { first_passes } else { second_passes };
    }
}

// A command that no expression belongs to, but for a call.
fn run_simple(run: &mut Run, scope: &Scope, simple: Simple) -> Option<Value> {
    match simple {
        Simple::Atom(a) => operand(scope, a),
        Simple::Pair(a, b) => Value::pair(&operand(scope, a)?, &operand(scope, b)?),
        Simple::First(a) => Some(operand(scope, a)?.parts()?.0),
        Simple::Second(a) => Some(operand(scope, a)?.parts()?.1),
        Simple::Flip(_) => Some(run.flip()),
        Simple::Observe(a) => {
            run.passes = run.passes & operand(scope, a)?.holds();
            Some(Value::of_bool(true))
        }
        Simple::Call(_, _) => None,
    }
}

// The value of the expression at the front, and what is left behind it; nothing where more than `depth` expressions lie in one another.
pub(crate) fn run_expression<'p>(
    run: &mut Run,
    outlined: &OutlinedProgram,
    part: Rest<'p>,
    scope: &Scope,
    depth: u16,
) -> Option<(Value, Rest<'p>)> {
    if depth == 0 {
        return None;
    }
    let deeper = depth - 1;
    let (command, rest) = part.next_command().ok()?;
    match command {
        Command::Simple(Simple::Call(number, a)) => {
            let functions = outlined.outline.functions.as_slice();
            let function = functions.get(number as usize)?;
            let mut names = no_names();
            names.push(operand(scope, a)?);
            let (value, _) = run_expression(
                run,
                outlined,
                outlined.body_part(function),
                &names,
                deeper,
            )?;
            Some((value, rest))
        }
        Command::Simple(simple) => Some((run_simple(run, scope, simple)?, rest)),
        Command::If(guard) => {
            let guard = operand(scope, guard)?.holds();
            let before = run.passes;
            let (first, rest) = run_expression(run, outlined, rest, scope, deeper)?;
            let first_passes = run.passes;
            run.passes = before;
            let (second, rest) = run_expression(run, outlined, rest, scope, deeper)?;
            let second_passes = run.passes;
            run.choose(first_passes, second_passes, guard);
            Some((if guard { first } else { second }, rest))
        }
        Command::Let => {
            let (bound, rest) = run_expression(run, outlined, rest, scope, deeper)?;
            let mut names = *scope;
            if names.is_full() {
                return None;
            }
            names.push(bound);
            run_expression(run, outlined, rest, &names, deeper)
        }
    }
}
