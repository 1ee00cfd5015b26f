//! The document of what all lines say.

ghost use Rattle.std.specs.Prelude.{◌≡◌, ◌<◌, ◌≤ℤ◌, ◌^◌, pos, map, slice_index_or, EachIndex, IfOk};
ghost use Rattle.std.specs.List.{All};
ghost use Rattle.denton_parts.specs.Year.{IsBenchmark};
ghost use Rattle.cert_read.specs.Content.{HasRanges};
ghost use Rattle.cert_read.specs.Reading.{content_of};

use crate::draft::{DatedBenchmark, Draft};
use dual_cert::CertDoc;
use qna_base::Memory;
use std::alloc::Global;

/// The document of what all lines say, each number in range.
pub(crate) fn document(alloc: Global, draft: Draft) -> Result<CertDoc, Memory>
    requires whole { draft.tail ≡ 2 }
    requires ranges { HasRanges draft }
    ensures { IfOk result (λ doc. draft ≡ content_of doc) }
{
    let ind = indicators(alloc, &draft.ind)?;
    let years = years(alloc, &draft.bench)?;
    let bench = benchmarks(alloc, &draft.bench)?;
    Ok(CertDoc {
        name: draft.name,
        front: draft.front as u64,
        scale: draft.scale as u8,
        start: draft.start,
        ind,
        years,
        bench,
        x: draft.x,
        u: draft.u,
        gap: draft.gap,
    })
}

/// The indicators as a document has them.
fn indicators(alloc: Global, raw: &[i128]) -> Result<Vec<u32>, Memory>
    requires least { EachIndex raw.now (λ t. pos 1 ≤ℤ slice_index_or raw.now t (pos 0)) }
    requires most { EachIndex raw.now (λ t. slice_index_or raw.now t (pos 0) ≤ℤ pos (10 ^ 9)) }
    ensures { IfOk result (λ v. map pos v.items ≡ raw.now) }
{
    let mut all = Vec::with_capacity(alloc, raw.len())?;
    for value in raw {
        all.push(*value as u32)?;
    }
    Ok(all)
}

/// The places of the benchmarked years as a document has them.
fn years(alloc: Global, raw: &[DatedBenchmark]) -> Result<Vec<u8>, Memory>
    requires { All (λ b. b.place < 64) raw.now }
    ensures { IfOk result (λ v. v.items ≡ map (λ b. b.place) raw.now) }
{
    let mut all = Vec::with_capacity(alloc, raw.len())?;
    for benchmark in raw {
        all.push(benchmark.place as u8)?;
    }
    Ok(all)
}

/// The benchmarks as a document has them.
fn benchmarks(alloc: Global, raw: &[DatedBenchmark]) -> Result<Vec<i64>, Memory>
    requires { All (λ b. IsBenchmark b.value) raw.now }
    ensures { IfOk result (λ v. v.items ≡ map (λ b. b.value) raw.now) }
{
    let mut all = Vec::with_capacity(alloc, raw.len())?;
    for benchmark in raw {
        all.push(benchmark.value as i64)?;
    }
    Ok(all)
}
