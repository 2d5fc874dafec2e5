// Types as the code holds them.
ghost use Rattle.std.specs.Prelude.{◌≡◌, ◌+◌, ◌-◌, ◌<◌, ◌≤◌, ◌==◌, length, IfOk};
ghost use Rattle.std.proofs.Common.{rules};
ghost use Rattle.std.specs.Cmp.Rules.{comparing};
ghost use Rattle.std.specs.Ordering.{on};
ghost use Rattle.std.specs.Cmp.Lexicographic.{pointwise};
ghost use Rattle.language.specs.Outcomes.{Follows};
ghost use Rattle.language.specs.Outlines.{Coded, Counted, PairCoded, PartsCoded, type_bytes};
ghost use Rattle.language.specs.Reading.{type_from};
ghost use Rattle.language.specs.Syntax.{Ty, bool};

use crate::fault::ReadFault;
use crate::rest::Rest;
use bounded::Bounded;

// The most leaves that a type may have.
pub const MOST_LEAVES: usize = 16;

// A type of at most 16 leaves, as its bytes in a program.
#[derive(Clone, Copy)]
pub struct TypeCode {
    pub bytes: Bounded<u8, 31>,
}

// Equal by its bytes alone: places that are not in use do not count, so no derive.
impl PartialEq for TypeCode {
    ghost eq = { on type_bytes (pointwise ◌==◌) };

    ghost laws = { Prim.search (comparing, rules) };

    fn eq(&self, other: &TypeCode) -> bool {
        self.as_slice() == other.as_slice()
    }
}

impl TypeCode {
    // Bool.
    pub fn bool() -> TypeCode
        ensures { Coded result bool }
    {
        TypeCode::of(&[0])
    }

    // The type with these bytes. No `From`: not every list of bytes is short enough.
    pub(crate) fn of(bytes: &[u8]) -> TypeCode
        requires { length bytes.now ≤ 31 }
        ensures { type_bytes result ≡ bytes.now }
    {
        let mut code = Bounded::new(0);
        code.extend(bytes);
        TypeCode { bytes: code }
    }

    // Its bytes.
    pub fn as_slice(&self) -> &[u8]
        ensures bytes { result.now ≡ type_bytes self.now }
        ensures short { length result.now ≤ 31 }
    {
        self.bytes.as_slice()
    }

    // The number of its leaves: a type has one byte for each leaf, and one for each pair.
    pub fn leaves(&self) -> usize
        ensures counted { (τ : Ty) → Coded self.now τ → Counted result τ }
        ensures few { result ≤ 16 }
    {
        (self.as_slice().len() + 1) / 2
    }

    // The pair of two types, unless it has too many leaves.
    pub fn pair(first: &TypeCode, second: &TypeCode) -> Option<TypeCode>
        ensures { (σ τ : Ty) → Coded first.now σ → Coded second.now τ → PairCoded result σ τ }
    {
        let (first, second) = (first.as_slice(), second.as_slice());
        if 1 + first.len() + second.len() > 31 {
            return None;
        }
        let mut bytes = Bounded::new(0);
        bytes.push(1);
        bytes.extend(first);
        bytes.extend(second);
        Some(TypeCode { bytes })
    }

    // The two parts of a pair.
    pub fn parts(&self) -> Option<(TypeCode, TypeCode)>
        ensures { (τ : Ty) → Coded self.now τ → PartsCoded result τ }
    {
        let [1, parts @ ..] = self.as_slice() else {
            return None;
        };
        let Ok((_, second)) = read_leaves(Rest::of(parts, 0)) else {
            return None;
        };
        let end = second.place();
        Some((TypeCode::of(&parts[0..end]), TypeCode::of(second.bytes)))
    }
}

// The number of leaves of the type at the front, and what is left behind it.
pub(crate) fn read_leaves<'p>(part: Rest<'p>) -> Result<(usize, Rest<'p>), ReadFault>
    ensures gives { Follows Counted part.entry.whole result (type_from part.entry.whole part.entry.bytes.now) }
    ensures shorter { IfOk result (λ x. x.0 + length x.1.bytes.now ≤ length part.entry.bytes.now) }
{
    let whole = part.whole;
    match part.bytes {
        [0, bytes @ ..] => Ok((1, Rest { bytes, whole })),
        [1, bytes @ ..] => {
            let (first, rest) = read_leaves(Rest { bytes, whole })?;
            let (second, rest) = read_leaves(rest)?;
            Ok((first + second, rest))
        }
        [] => Err(ReadFault::Ends(whole)),
        _ => Err(ReadFault::Unknown(part.place())),
    }
}
