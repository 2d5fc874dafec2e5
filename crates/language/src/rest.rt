// What is left of a program where it is read.
ghost use Rattle.std.specs.Prelude.{◌≡◌, ◌-◌, ◌<◌, ◌≤◌, length, drop, IfOk};

use crate::command::{Command, Operand, Simple};
use crate::fault::ReadFault;

// The last bytes of a program, or of a type alone, of `whole` bytes.
#[derive(Clone, Copy)]
pub struct Rest<'p> {
    pub bytes: &'p [u8],
    pub whole: usize,
    ghost within: { length bytes.now ≤ whole },
}

impl<'p> Rest<'p> {
    ghost use Rattle.language.specs.Outcomes.{Follows, Same};
    ghost use Rattle.language.specs.Reading.{command_from};

    // A program from a place on.
    pub fn of(program: &'p [u8], place: usize) -> Rest<'p>
        ensures bytes { result.bytes.now ≡ drop place program.now }
        ensures whole { result.whole ≡ length program.now }
    {
        Rest {
            bytes: program.get(place..).unwrap_or(&[]),
            whole: program.len(),
        }
    }

    // The place where it begins.
    pub fn place(self) -> usize
        ensures { result ≡ self.entry.whole - length self.entry.bytes.now }
    {
        self.whole - self.bytes.len()
    }

    // The command at the front, and what is left behind it. Each walk over a program takes this step for each command: inline, what is
    // left stays in registers.
    #[inline(always)]
    pub fn next_command(self) -> Result<(Command, Rest<'p>), ReadFault>
        ensures gives { Follows Same self.entry.whole result (command_from self.entry.whole self.entry.bytes.now) }
        ensures shorter { IfOk result (λ x. length x.1.bytes.now < length self.entry.bytes.now) }
    {
        let whole = self.whole;
        let (command, bytes) = match self.bytes {
            [1, a, rest @ ..] => (Command::Simple(Simple::Atom(Operand::from(*a))), rest),
            [2, a, b, rest @ ..] => {
                let (first, second) = (Operand::from(*a), Operand::from(*b));
                (Command::Simple(Simple::Pair(first, second)), rest)
            }
            [3, a, rest @ ..] => (Command::Simple(Simple::First(Operand::from(*a))), rest),
            [4, a, rest @ ..] => (Command::Simple(Simple::Second(Operand::from(*a))), rest),
            [5, row, rest @ ..] => (Command::Simple(Simple::Flip(*row)), rest),
            [6, guard, rest @ ..] => (Command::If(Operand::from(*guard)), rest),
            [7, rest @ ..] => (Command::Let, rest),
            [8, a, rest @ ..] => (Command::Simple(Simple::Observe(Operand::from(*a))), rest),
            [9, function, a, rest @ ..] => {
                let operand = Operand::from(*a);
                (Command::Simple(Simple::Call(*function, operand)), rest)
            }
            [] | [1..=9, ..] => return Err(ReadFault::Ends(whole)),
            _ => return Err(ReadFault::Unknown(self.place())),
        };
        Ok((command, Rest { bytes, whole }))
    }
}
