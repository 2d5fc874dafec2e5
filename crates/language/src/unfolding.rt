// Unfolding: how large the main expression is with each call in the place of the body that it calls.
ghost use Rattle.std.specs.Prelude.{◌≡◌, ℕ, ◌+◌, ◌<◌, ◌≤◌, List, ◌++◌, length, IfOk, MatchResult};
ghost use Rattle.bounded.specs.Listed.{listed};
ghost use Rattle.language.specs.Accepting.{Measures, Unfolds, ByAllRules};
ghost use Rattle.language.specs.Grammar.{Encodes};
ghost use Rattle.language.specs.Outlines.{Outlines};
ghost use Rattle.language.specs.Syntax.{Ty, Expr, Function, Program, Proper, encode_expr};
ghost use Rattle.language.specs.Unfolding.{unfold_expr, bodies_of, CallsBelow, WellCalled, accepted_of};
ghost use Rattle.language.specs.declared.fault.UnfoldFault.TheVariants.{Size};

use crate::command::{Command, Simple};
use crate::fault::{TypeFault, UnfoldFault};
use crate::outline::OutlinedProgram;
use crate::rest::Rest;
use crate::typing::{TypedOutline, check_types};

// The most commands and the most flips of an unfolded main expression.
pub const MOST_COMMANDS: usize = 4096;

pub const MOST_FLIPS: usize = 128;

// Commands and flips, counted up to 4,096 commands.
#[derive(Clone, Copy, Debug, Default, PartialEq, Eq)]
pub struct Figures {
    pub size: usize,
    pub flips: usize,
}

impl Figures {
    // One command more, unless there are 4,096.
    fn with_command(self) -> Result<Figures, UnfoldFault>
        ensures { MatchResult result (λ x. (self.size < 4096) × (x.size ≡ self.size + 1) × (x.flips ≡ self.flips)) (λ e. (4096 ≤ self.size) × (e ≡ Size)) }
    {
        if self.size >= MOST_COMMANDS {
            return Err(UnfoldFault::Size);
        }
        Ok(Figures {
            size: self.size + 1,
            flips: self.flips,
        })
    }
}

// Adds the figures of the expression at the front, unfolded, to `so_far`. It may call the first `below` functions;
// a function's number is compared and not only looked up, since its body may call those below it.
fn measure<'p>(
    outlined: &OutlinedProgram,
    part: Rest<'p>,
    below: usize,
    so_far: Figures,
) -> Result<(Figures, Rest<'p>), UnfoldFault>
    requires below { below ≤ length (listed outlined.now.outline.now.functions) }
    requires flips { so_far.flips ≤ so_far.size }
    ensures measured { (p : Program) (Φ following : List Function) (Γ : List Ty) (e : Expr) (end : List ℕ) → Encodes outlined.now.program.now p → Outlines outlined.now.outline.now p → WellCalled p → p.functions ≡ Φ ++ following → length Φ ≡ below → part.entry.bytes.now ≡ encode_expr e ++ end → Proper e → CallsBelow below e → Measures end part.entry.whole so_far result (unfold_expr Φ (bodies_of Φ) Γ e) }
    ensures shorter { IfOk result (λ x. length x.1.bytes.now < length part.entry.bytes.now) }
    ensures within { IfOk result (λ x. x.0.flips ≤ x.0.size) }
{
    let (command, rest) = part.next_command()?;
    let counted = so_far.with_command()?;
    match command {
        Command::Simple(simple) => match simple {
            Simple::Flip(_) => {
                let flips = counted.flips + 1;
                let size = counted.size;
                Ok((Figures { size, flips }, rest))
            }
            Simple::Call(number, _) => {
                let number = number as usize;
                if number >= below {
                    return Err(UnfoldFault::Typing(TypeFault::NoFunction(part.place())));
                }
                let body = outlined.body_part(&outlined.outline.functions.as_slice()[number]);
                let (with_body, _) = measure(outlined, body, number, counted)?;
                Ok((with_body, rest))
            }
            _ => Ok((counted, rest)),
        },
        Command::If(_) | Command::Let => {
            let (with_first, rest) = measure(outlined, rest, below, counted)?;
            measure(outlined, rest, below, with_first)
        }
    }
}

// A program that is accepted: what typing found, and the figures of its unfolded main expression.
#[derive(Clone, Copy)]
pub struct Unfolded {
    pub typed: TypedOutline,
    pub figures: Figures,
}

// What the three layers find of a program, or the first fault.
pub fn unfold_main(program: &[u8]) -> Result<Unfolded, UnfoldFault>
    ensures exact { Unfolds result (accepted_of program.now) }
    ensures rules { ByAllRules program.now result }
    ensures within { IfOk result (λ _. length program.now ≤ 4096) }
{
    let typed = check_types(program)?;
    let outlined = OutlinedProgram {
        program,
        outline: &typed.outline,
    };
    let all = typed.outline.functions.len();
    let (figures, _) = measure(&outlined, outlined.main_part(), all, Figures::default())?;
    if figures.flips > MOST_FLIPS {
        return Err(UnfoldFault::Flips);
    }
    Ok(Unfolded { typed, figures })
}
