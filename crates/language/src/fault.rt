// What is wrong with a program: the faults of each layer, and the refusal that each stands for.
ghost use Rattle.language.specs.Refusals.{refusal_of_read, refusal_of_typing, refusal_of_unfolding, refusal_text};
ghost use Rattle.language.specs.declared.fault.Layer.{Layer};
ghost use Rattle.language.specs.declared.fault.Refusal.{Refusal};
ghost use Rattle.language.specs.declared.fault.TypeFault.TheVariants.{Reading};
ghost use Rattle.language.specs.declared.fault.UnfoldFault.TheVariants.{Typing};
ghost use Rattle.std.specs.Prelude.{◌≡◌, Some};

use std::fmt;

// The layer that refuses a program.
#[derive(Clone, Copy, Debug, PartialEq, Eq)]
pub enum Layer {
    Reading,
    Typing,
    Unfolding,
}

// A refusal as it is reported: its number in the table of refusals, which is printed, the layer that it comes from, and the byte that it is about.
// The layers are those of a program, where none are named: a book has more.
#[derive(Clone, Copy, Debug, PartialEq, Eq)]
pub struct Refusal<L = Layer> {
    pub number: u8,
    pub layer: L,
    pub place: usize,
}

impl<L> fmt::Display for Refusal<L> {
    ghost output = { λ r. Some (refusal_text r) };

    fn fmt<W: fmt::Write>(&self, f: &mut fmt::Formatter<W>) -> fmt::Result {
        write!(f, "refused {} at {}", self.number, self.place)
    }
}

// What stops the work on a program: each case stands for one refusal.
pub trait Fault {
    // By the table of refusals.
    ghost means: { Self → Refusal Layer };

    fn refusal(&self) -> Refusal
        ensures { result ≡ means self.now };

    fn number(&self) -> u8
        ensures { result ≡ (means self.now).number }
    {
        self.refusal().number
    }

    fn layer(&self) -> Layer
        ensures { result ≡ (means self.now).layer }
    {
        self.refusal().layer
    }

    fn place(&self) -> usize
        ensures { result ≡ (means self.now).place }
    {
        self.refusal().place
    }
}

// What stops the reading of a program.
#[derive(Clone, Copy, Debug, PartialEq, Eq)]
pub enum ReadFault {
    // There are more than 4,096 bytes.
    TooLong,
    // The program ends where a byte is due.
    Ends(usize),
    // The byte is no command and no type, or a number of functions above 16.
    Unknown(usize),
    // The type that begins here has more than 16 leaves.
    TooWide(usize),
    // The program is over, and more bytes follow.
    Trailing(usize),
}

impl Fault for ReadFault {
    ghost means = { refusal_of_read };

    fn refusal(&self) -> Refusal {
        let (number, place) = match self {
            ReadFault::TooLong => (1, 4096),
            ReadFault::Ends(place) => (2, *place),
            ReadFault::Unknown(place) => (3, *place),
            ReadFault::TooWide(place) => (4, *place),
            ReadFault::Trailing(place) => (5, *place),
        };
        Refusal {
            number,
            layer: Layer::Reading,
            place,
        }
    }
}

// What stops the typing of a program, each at the command that it is about.
#[derive(Clone, Copy, Debug, PartialEq, Eq)]
pub enum TypeFault {
    Reading(ReadFault),
    // An operand names nothing in scope.
    OutOfScope(usize),
    // A type rule is broken; for a body with a wrong type, at its first byte.
    Mistyped(usize),
    // The function called is not one of those before.
    NoFunction(usize),
    // A pair above 16 leaves, or a let at 32 names.
    OverLimit(usize),
}

impl Fault for TypeFault {
    ghost means = { refusal_of_typing };

    fn refusal(&self) -> Refusal {
        let (number, place) = match self {
            TypeFault::Reading(fault) => return fault.refusal(),
            TypeFault::OutOfScope(place) => (6, *place),
            TypeFault::Mistyped(place) => (7, *place),
            TypeFault::NoFunction(place) => (8, *place),
            TypeFault::OverLimit(place) => (9, *place),
        };
        Refusal {
            number,
            layer: Layer::Typing,
            place,
        }
    }
}

impl From<ReadFault> for TypeFault {
    ghost from_gives = { λ e r. r ≡ Reading e };

    fn from(e: ReadFault) -> TypeFault {
        TypeFault::Reading(e)
    }
}

// What stops the unfolding of a program.
#[derive(Clone, Copy, Debug, PartialEq, Eq)]
pub enum UnfoldFault {
    Typing(TypeFault),
    // Unfolded, the main expression has more than 4,096 commands.
    Size,
    // Unfolded, the main expression has more than 128 flips.
    Flips,
}

impl Fault for UnfoldFault {
    ghost means = { refusal_of_unfolding };

    fn refusal(&self) -> Refusal {
        let number = match self {
            UnfoldFault::Typing(fault) => return fault.refusal(),
            UnfoldFault::Size => 10,
            UnfoldFault::Flips => 11,
        };
        Refusal {
            number,
            layer: Layer::Unfolding,
            place: 0,
        }
    }
}

impl From<TypeFault> for UnfoldFault {
    ghost from_gives = { λ e r. r ≡ Typing e };

    fn from(e: TypeFault) -> UnfoldFault {
        UnfoldFault::Typing(e)
    }
}

// A program is read again where it is unfolded.
impl From<ReadFault> for UnfoldFault {
    ghost from_gives = { λ e r. r ≡ Typing (Reading e) };

    fn from(e: ReadFault) -> UnfoldFault {
        UnfoldFault::Typing(TypeFault::Reading(e))
    }
}
