// Commands: one byte each, then operands of fixed width.
ghost use Rattle.std.specs.Prelude.{◌≡◌};
ghost use Rattle.language.specs.Reading.{operand_of};

// A constant, or the number of a name in scope, 0 being the outermost.
#[derive(Clone, Copy, Debug, PartialEq, Eq)]
pub enum Operand {
    False,
    True,
    Name(u8),
}

// The operand that a byte stands for.
impl From<u8> for Operand {
    ghost from_gives = { λ byte r. r ≡ operand_of byte };

    fn from(byte: u8) -> Operand {
        match byte {
            0xfe => Operand::False,
            0xff => Operand::True,
            name => Operand::Name(name),
        }
    }
}

// A command that no expression belongs to.
#[derive(Clone, Copy, Debug, PartialEq, Eq)]
pub enum Simple {
    Atom(Operand),
    Pair(Operand, Operand),
    First(Operand),
    Second(Operand),
    Flip(u8),
    Observe(Operand),
    Call(u8, Operand),
}

// A command. Two expressions belong to an if, its arms, and two to a let, its parts.
#[derive(Clone, Copy, Debug, PartialEq, Eq)]
pub enum Command {
    Simple(Simple),
    If(Operand),
    Let,
}
