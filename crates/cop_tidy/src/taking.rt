//! What the strict reading takes of a text.

ghost use Rattle.std.specs.Prelude.{◌≡◌, Ok, Err, IfOk, IfErr};
ghost use Rattle.cop_dict.specs.Build.{built};
ghost use Rattle.cop_tidy.specs.Standing.{AreRefused};
ghost use Rattle.cop_tidy.specs.Taken.{IsTaken};

use cop_dict::{Dictionary, build};
use cop_eds::{Eds, EdsFault, Refusal};
use cop_frame::RateSet;
use std::alloc::{AllocError, Global};

/// What the strict reading takes of an accepted text: the rates that it supports, and its dictionaries for the first and for the last node.
#[derive(Drop)]
pub struct Taken {
    pub rates: RateSet,
    pub first: Dictionary,
    pub last: Dictionary,
}

/// The dictionary of a text for a node, or the refusal.
fn built_for(
    alloc: Global,
    eds: &Eds<'_>,
    node: u8,
) -> Result<Result<Dictionary, Refusal>, AllocError>
    ensures ok { IfOk result (λ r. IfOk r (λ dict. built eds.now node ≡ Ok dict)) }
    ensures err { IfOk result (λ r. IfErr r (λ refusal. built eds.now node ≡ Err refusal)) }
{
    match build(alloc, eds, node) {
        Ok(dict) => Ok(Ok(dict)),
        Err(EdsFault::Refused(refusal)) => Ok(Err(refusal)),
        Err(EdsFault::Memory) => Err(AllocError),
    }
}

/// What is taken of a text that is read, or the refusal of a dictionary.
#[tactic(auto, using(crate::proofs::TakenLemmas::taken_of, crate::proofs::TakenLemmas::refused_first, crate::proofs::TakenLemmas::refused_last))]
pub fn taken_of(alloc: Global, eds: &Eds<'_>) -> Result<Result<Taken, Refusal>, AllocError>
    ensures ok { IfOk result (λ r. IfOk r (IsTaken eds.now)) }
    ensures err { IfOk result (λ r. IfErr r (AreRefused (built eds.now 1) (built eds.now 127))) }
{
    let first = match built_for(alloc, eds, 1)? {
        Ok(dict) => dict,
        Err(refusal) => return Ok(Err(refusal)),
    };
    let last = match built_for(alloc, eds, 127)? {
        Ok(dict) => dict,
        Err(refusal) => return Ok(Err(refusal)),
    };
    Ok(Ok(Taken {
        rates: eds.rates(),
        first,
        last,
    }))
}
