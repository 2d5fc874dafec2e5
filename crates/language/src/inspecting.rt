// Inspecting a program: through the three layers, to its figures or the first refusal.
ghost use Rattle.language.specs.Accepting.{ByAllRules, Inspects};
ghost use Rattle.language.specs.Unfolding.{accepted_of};

use crate::fault::UnfoldFault;
use crate::unfolding::unfold_main;

// The figures of a program: its functions, the commands and flips of its unfolded main expression, and the leaves of its value.
#[derive(Clone, Copy, Debug, PartialEq, Eq)]
pub struct Inspection {
    pub functions: usize,
    pub size: usize,
    pub flips: usize,
    pub leaves: usize,
}

// The figures of a program, or the fault of the first layer that refuses it.
pub fn inspect(program: &[u8]) -> Result<Inspection, UnfoldFault>
    ensures exact { Inspects result (accepted_of program.now) }
    ensures rules { ByAllRules program.now result }
{
    let unfolded = unfold_main(program)?;
    Ok(Inspection {
        functions: unfolded.typed.outline.functions.len(),
        size: unfolded.figures.size,
        flips: unfolded.figures.flips,
        leaves: unfolded.typed.value.leaves(),
    })
}
