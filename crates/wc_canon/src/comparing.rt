//! Whether two inputs denote the same module.

ghost use Rattle.std.specs.Prelude.{◌≡◌, ◌≢◌, ◌⊎◌, IfOk, IfErr, MatchResult};
ghost use Rattle.wc_ast.specs.declared.module.Module.{Module};
ghost use Rattle.wc_canon.specs.declared.fault.Refusal.TheVariants as refusals;
ghost use Rattle.wc_canon.specs.Standard.Input.{Means, HasAnswer, HasFault, IsRefused};
ghost use Rattle.wc_canon.specs.Standard.Comparing.{Compares, IsSideRefused};
ghost use Rattle.wc_canon.specs.Answering.Sides.{ComparesBytes};

use crate::fault::Refusal;
use crate::normalising::normalise;
use std::alloc::Global;

/// What a comparison tells.
#[derive(Clone, Copy, Debug, PartialEq, Eq)]
pub enum Comparison {
    /// Both inputs denote the same module.
    Same,
    /// The inputs denote different modules.
    Different,
}

/// One of the two inputs of a comparison.
#[derive(Clone, Copy, Debug, PartialEq, Eq)]
pub enum Side {
    /// The first input.
    A,
    /// The second input.
    B,
}

/// The answer to the input that is the side, or its refusal with that side.
fn judge(alloc: Global, side: Side, input: &[u8]) -> Result<Vec<u8>, (Side, Refusal)>
    ensures ok { IfOk result (λ b. HasAnswer input.now b.items) }
    ensures err { IfErr result (λ e. IsRefused input.now e.1) }
    ensures side { IfErr result (λ e. e.0 ≡ side) }
{
    match normalise(alloc, input) {
        Ok(bytes) => Ok(bytes),
        Err(refusal) => Err((side, refusal)),
    }
}

/// Whether the canonical bytes of two inputs are the same.
pub(crate) fn tell_apart(first: &[u8], second: &[u8]) -> Comparison
    ensures { ComparesBytes first.now second.now result }
{
    if first == second {
        Comparison::Same
    } else {
        Comparison::Different
    }
}

/// Both inputs are judged, the first one first, and their canonical bytes are compared.
fn compare_answers(alloc: Global, a: &[u8], b: &[u8]) -> Result<Comparison, (Side, Refusal)>
    ensures ok { IfOk result (Compares a.now b.now) }
    ensures err { IfErr result (λ e. IsSideRefused a.now b.now e.0 e.1) }
{
    let first = judge(alloc, Side::A, a)?;
    let second = judge(alloc, Side::B, b)?;
    Ok(tell_apart(first.as_slice(), second.as_slice()))
}

/// Whether two inputs denote the same module: `Same` exactly if both are accepted and do, `Different` exactly if both
/// are accepted and don't.
///
/// # Errors
/// The refusal of `Side::A` where the first input isn't accepted, else that of `Side::B` where the second one isn't.
/// With `Refusal::Memory` the side is the input that was judged, which no clause can say: it is tested.
pub fn compare(alloc: Global, a: &[u8], b: &[u8]) -> Result<Comparison, (Side, Refusal)>
    ensures ok { IfOk result (Compares a.now b.now) }
    ensures err { IfErr result (λ e. IsSideRefused a.now b.now e.0 e.1) }

    // Each pair of inputs that are accepted is told so.
    ensures same { (m : Module) → Means a.now m → Means b.now m
        → MatchResult result (λ c. c ≡ Comparison.Same) (λ e. e.1 ≡ refusals.Memory) }
    ensures different { (m n : Module) → Means a.now m → Means b.now n → m ≢ n
        → MatchResult result (λ c. c ≡ Comparison.Different) (λ e. e.1 ≡ refusals.Memory) }

    // Each first input that isn't accepted is refused, and else each second one.
    ensures refused_a { (f : Refusal) → HasFault a.now f
        → MatchResult result (λ c. ⊥) (λ e. (e.0 ≡ Side.A) × ((e.1 ≡ refusals.Memory) ⊎ (e.1 ≡ f))) }
    ensures refused_b { (m : Module) (f : Refusal) → Means a.now m → HasFault b.now f
        → MatchResult result (λ c. ⊥) (λ e. (e.1 ≡ refusals.Memory) ⊎ ((e.0 ≡ Side.B) × (e.1 ≡ f))) }
{
    compare_answers(alloc, a, b)
}
