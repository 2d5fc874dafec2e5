// Why a call on a book is refused, and the refusal that each case stands for.
ghost use Rattle.line_book.specs.Refusals.{refusal_of_book, refusal_of_count};
ghost use Rattle.line_book.specs.declared.fault.BookFault.TheVariants.{Unfolding, Nodes};
ghost use Rattle.std.specs.Prelude.{◌≡◌};

use diagram::Full;
use language::fault::{Fault, Layer as ProgramLayer, Refusal, UnfoldFault};

// The layer that refuses a call: one of those that refuse a program, the book, or counting.
#[derive(Clone, Copy, Debug, PartialEq, Eq)]
pub enum Layer {
    Program(ProgramLayer),
    Book,
    Counting,
}

// Why a program is not taken, or a question not accepted.
#[derive(Clone, Copy, Debug, PartialEq, Eq)]
pub enum BookFault {
    // The program is not accepted by the layers below.
    Unfolding(UnfoldFault),
    // Eight entries stand.
    Entries,
    // No ordered table of the book's length holds the formulas concerned.
    Nodes,
    // There is no entry of this number.
    NoEntry,
    // The pattern has not one byte a leaf, or a byte above 2.
    Pattern,
    // Sixty-four questions stand.
    Questions,
}

impl BookFault {
    // The refusal that the fault stands for. Not the trait `Fault`, whose layers are a program's alone.
    pub fn refusal(&self) -> Refusal<Layer>
        ensures { result ≡ refusal_of_book self.now }
    {
        let number = match self {
            BookFault::Unfolding(fault) => {
                // The same refusal, with its layer among more: no conversion goes from one type of refusals to another by itself.
                let refusal = fault.refusal();
                return Refusal {
                    number: refusal.number,
                    layer: Layer::Program(refusal.layer),
                    place: refusal.place,
                };
            }
            BookFault::Entries => 12,
            BookFault::Nodes => 13,
            BookFault::NoEntry => 14,
            BookFault::Pattern => 15,
            BookFault::Questions => 16,
        };
        Refusal {
            number,
            layer: Layer::Book,
            place: 0,
        }
    }
}

impl From<UnfoldFault> for BookFault {
    ghost from_gives = { λ e r. r ≡ Unfolding e };

    fn from(e: UnfoldFault) -> BookFault {
        BookFault::Unfolding(e)
    }
}

impl From<Full> for BookFault {
    ghost from_gives = { λ e r. r ≡ Nodes };

    fn from(_e: Full) -> BookFault {
        BookFault::Nodes
    }
}

// Why questions are not counted or compared.
#[derive(Clone, Copy, Debug, PartialEq, Eq)]
pub enum CountFault {
    // There is no question of this number.
    NoQuestion,
    // The lists of weights differ in length, or lack the row of a flip.
    Weights,
    // There are fewer cells than nodes in use.
    Cells,
}

impl CountFault {
    // The refusal that the fault stands for. Not the trait `Fault`, whose layers are a program's alone.
    pub fn refusal(&self) -> Refusal<Layer>
        ensures { result ≡ refusal_of_count self.now }
    {
        let number = match self {
            CountFault::NoQuestion => 17,
            CountFault::Weights => 18,
            CountFault::Cells => 19,
        };
        Refusal {
            number,
            layer: Layer::Counting,
            place: 0,
        }
    }
}
