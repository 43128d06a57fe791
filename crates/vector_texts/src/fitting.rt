ghost use Rattle.std.specs.Prelude.{◌≡◌, ◌≤◌, ◌<◌, ◌^◌, ◌++◌, ◌∷◌, [], length, slice_index_or, pos, unsigned_abs, Ok, IfOk, IfErr, OnOk, IfSome, IfNone};
ghost use Rattle.diagnostics.specs.Stages.{EndsIn};
ghost use Rattle.vector_texts.specs.Fitting.{size_at, FittedTo};

use diagnostics::{Ending, Refusal, VectorFault};
use fem_fixed::NoMemory;
use std::alloc::Global;

/// The values of a vector, where there are as many as are wanted and none is above the limit in size.
///
/// # Errors
///
/// `Length` where there are more or fewer, and else `Value` with the place of the first that is too large.
pub(crate) fn fitted(
    alloc: Global,
    values: &[i128],
    size: u32,
    limit: u32,
) -> Result<Vec<i64>, Ending>
    requires few { length values.now < 2 ^ 32 }
    ensures ok { IfOk result (λ x. FittedTo size limit values.now (Ok x.items)) }
    ensures ends { IfErr result (EndsIn (FittedTo size limit values.now)) }
{
    if values.len() != size as usize {
        return Err(refused(VectorFault::Length(values.len() as u32)));
    }
    let mut x = room_for(alloc, values.len())?;
    for place in 0..values.len() {
        match small_at(values, place, limit) {
            Some(value) => push(&mut x, value)?,
            None => return Err(refused(VectorFault::Value(place as u32))),
        }
    }
    Ok(x)
}

fn room_for(alloc: Global, count: usize) -> Result<Vec<i64>, NoMemory>
    ensures { IfOk result (λ x. x.items ≡ []) }
{
    Ok(Vec::with_capacity(alloc, count)?)
}

fn push(x: &mut Vec<i64>, value: i64) -> Result<(), NoMemory>
    ensures { OnOk result (x.new.items ≡ x.old.items ++ value ∷ []) }
{
    x.push(value)?;
    Ok(())
}

fn refused(fault: VectorFault) -> Ending
    ensures { result ≡ Ending.Refused (Refusal.Vector fault) }
{
    Ending::Refused(Refusal::Vector(fault))
}

// The value at a place, where it is at most the limit in size.
fn small_at(values: &[i128], place: usize, limit: u32) -> Option<i64>
    requires { place < length values.now }
    ensures some { IfSome result (λ same. same ≡ slice_index_or values.now place (pos 0)) }
    ensures fits { IfSome result (λ same. unsigned_abs same ≤ limit) }
    ensures none { IfNone result (limit < size_at values.now place) }
{
    small(values[place], limit)
}

// The value, where it is at most the limit in size.
#[tactic(auto, using(crate::proofs::Small::fits_word))]
fn small(value: i128, limit: u32) -> Option<i64>
    ensures some { IfSome result (λ same. same ≡ value) }
    ensures fits { IfSome result (λ same. unsigned_abs same ≤ limit) }
    ensures none { IfNone result (limit < unsigned_abs value) }
{
    if value.unsigned_abs() > limit as u128 {
        return None;
    }
    Some(value as i64)
}
