//! Sets as numbers.
ghost use Rattle.std.specs.Prelude.{◌≡◌, IfOk, ◌+◌, ◌^◌, ◌<◌, pos, nat_eq, if◌then◌else◌};
ghost use Rattle.std.specs.List.{list_any};
ghost use Rattle.op_semantics.specs.Expressions.{high_in, low_in};
ghost use Rattle.op_meaning.specs.Numbers.{between};
ghost use Rattle.op_meaning.specs.Sets.{set_of, set_of_elements};

use op_base::NoMemory;
use op_core::{Core, TypeId};
use op_values::{high_in, low_in};

/// The elements of a set are the numbers below this one.
const ELEMENTS: u32 = 32;

/// The set of these elements.
#[tactic(auto, using(crate::proofs::Bits::below_power, crate::proofs::Bits::one_more, crate::proofs::Bits::no_bits))]
pub fn set_of_elements(elements: &[u8]) -> i32
    ensures { result ≡ set_of_elements elements.now }
{
    let mut bits = 0u32;
    for k in 0..ELEMENTS {
        bits = with_bit(bits, k, is_among(elements, k));
    }
    bits.cast_signed()
}

/// The set of all values of the type that a set can have.
#[tactic(auto, using(crate::proofs::Bits::below_power, crate::proofs::Bits::one_more, crate::proofs::Bits::no_bits))]
pub fn set_of_type(core: &Core, of: TypeId) -> Result<i32, NoMemory>
    ensures { IfOk result (λ set. set ≡ set_of (λ n. between (low_in core.now of) (high_in core.now of) (pos n))) }
{
    let low = low_in(core, of)?;
    let high = high_in(core, of)?;
    let mut bits = 0u32;
    for k in 0..ELEMENTS {
        bits = with_bit(bits, k, is_between(low, high, k));
    }
    Ok(bits.cast_signed())
}

fn is_among(elements: &[u8], k: u32) -> bool
    ensures { result ≡ list_any (λ e. nat_eq e k) elements.now }
{
    elements.iter().any(|e| *e as u32 == k)
}

fn is_between(low: i32, high: i32, k: u32) -> bool
    ensures { result ≡ between low high (pos k) }
{
    low as i64 <= k as i64 && k as i64 <= high as i64
}

/// The bits below the one of this number, and that one where it is to be there.
fn with_bit(bits: u32, k: u32, is: bool) -> u32
    requires element { k < 32 }
    requires below { bits < 2 ^ k }
    ensures { result ≡ (if is then 2 ^ k else 0) + bits }
{
    if is { bits | 1 << k } else { bits }
}
