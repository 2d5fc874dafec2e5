// The outline of a program that was read, and a program with its outline.
ghost use Rattle.std.specs.Prelude.{◌≡◌, ◌≤◌, length, drop};

use crate::rest::Rest;
use crate::types::TypeCode;
use bounded::Bounded;

// The most bytes of a program, and the most functions.
pub const MOST_BYTES: usize = 4096;

pub const MOST_FUNCTIONS: usize = 16;

// A function: its types, and the place where its body begins, which refusals name.
#[derive(Clone, Copy)]
pub struct FunctionOutline {
    pub parameter: TypeCode,
    pub result: TypeCode,
    pub body: usize,
}

// A program that was read: its functions, and the place of the main expression, as of a body.
#[derive(Clone, Copy)]
pub struct Outline {
    pub functions: Bounded<FunctionOutline, MOST_FUNCTIONS>,
    pub main: usize,
}

// A program's bytes and its outline, handed on as one. That they belong together is for the clauses.
#[derive(Clone, Copy)]
pub struct OutlinedProgram<'p> {
    pub program: &'p [u8],
    pub outline: &'p Outline,
    pub ghost short: { length program.now ≤ 4096 },
}

impl<'p> OutlinedProgram<'p> {
    // The program from its main expression on.
    pub fn main_part(&self) -> Rest<'p>
        ensures bytes { result.bytes.now ≡ drop self.now.outline.now.main self.now.program.now }
        ensures whole { result.whole ≡ length self.now.program.now }
    {
        Rest::of(self.program, self.outline.main)
    }

    // The program from the body of a function on.
    pub fn body_part(&self, function: &FunctionOutline) -> Rest<'p>
        ensures bytes { result.bytes.now ≡ drop function.now.body self.now.program.now }
        ensures whole { result.whole ≡ length self.now.program.now }
    {
        Rest::of(self.program, function.body)
    }
}
