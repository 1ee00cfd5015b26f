//! Copies of works.

ghost use Rattle.std.specs.Prelude.{◌≡◌, IfOk};
ghost use Rattle.round_works.specs.Sameness.{HaveSameInputs};
ghost use Rattle.round_works.specs.Works.{work_in};

use crate::work::Work;
use qna_base::Memory;
use series_tables::LeafInput;
use std::alloc::Global;

/// The same work again.
pub(crate) fn copy_of(alloc: Global, work: &Work) -> Result<Work, Memory>
    ensures { IfOk result (λ copy. work_in copy ≡ work_in work.now) }
{
    match work {
        Work::Leaf(input) => Ok(Work::Leaf(copy_of_leaf(alloc, input)?)),
        Work::Inner(sum) => Ok(Work::Inner(sum.copy()?)),
    }
}

/// The same leaf's inputs again.
fn copy_of_leaf(alloc: Global, input: &LeafInput) -> Result<LeafInput, Memory>
    ensures { IfOk result (λ copy. HaveSameInputs copy input.now) }
{
    Ok(LeafInput {
        ind: Vec::from_slice(alloc, &input.ind)?,
        price: Vec::from_slice(alloc, &input.price)?,
        bench: Vec::from_slice(alloc, &input.bench)?,
    })
}
