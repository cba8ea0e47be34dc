//! What is due for wanted requests.
ghost use Rattle.std.specs.Prelude.{◌≡◌, ◌≤◌, None, Some, IfOk};
ghost use Rattle.choice_rank.specs.Least.{IsAnswer, NoneLegal};
ghost use Rattle.search_api.specs.Accounts.{Accounted};
ghost use Rattle.dma_rules.specs.Judged.{dma_meaning};
ghost use Rattle.dma_rules.specs.Streams.{meets, shape_of};
ghost use Rattle.dma_rules.specs.Texts.{IsRefutation, OfWant};

use crate::judge::DmaJudge;
use crate::lines::dma_text;
use crate::want::DmaWant;
use answers::{Answer, Status};
use choice_rank::least_of;
use refutation::{canonical, write_proof};
use res_base::{Items, OutOfMemory};
use res_io::Gate;
use search_api::{Judge, Outcome};
use std::alloc::Global;
use std::sync::Wait;
use std::thread::Threads;
use steal_pool::search_by;

/// What is due for wanted requests, by the search of 1 to 16 workers at a time.
///
/// `Done`: the rank line of the choice of least rank in which no two requests take one stream, and a line for each
/// request. `NoChoice`, exactly where there is no such choice: the canonical refutation.
pub fn dma_answer<R: Threads + Wait + Sync, G: Gate + Sync>(
    rt: &R,
    alloc: Global,
    w: DmaWant,
    workers: u32,
    gate: &G,
) -> Result<Answer, OutOfMemory>
    requires { (1 ≤ workers) × (workers ≤ 16) }
    ensures { IfOk result (OfWant w) }
{
    let judge = DmaJudge::new(alloc, w)?;
    let outcome = search_by(rt, alloc, &judge, workers, gate)?;
    told(alloc, &judge, &outcome)
}

/// What is due for the rank of the least choice, or for none.
fn told(alloc: Global, j: &DmaJudge, o: &Outcome) -> Result<Answer, OutOfMemory>
    requires accounted { Accounted (dma_meaning j.now.want) o.now.best o.now.kept o.now.closed }
    requires answer { IsAnswer (shape_of j.now.want) (meets j.now.want) o.now.best }
    ensures { IfOk result (OfWant j.now.want) }
{
    match o.best {
        Some(rank) => served(alloc, j.want(), rank),
        None => refuted(alloc, j, o),
    }
}

/// What is due where a rank is the least.
fn served(alloc: Global, w: &DmaWant, rank: u64) -> Result<Answer, OutOfMemory>
    requires { IsAnswer (shape_of w.now) (meets w.now) (Some rank) }
    ensures { IfOk result (OfWant w.now) }
{
    let at = least_of(alloc, w.shape(), rank)?;
    let text = dma_text(alloc, w, at.as_slice())?;
    Ok(Answer {
        status: Status::Done,
        text: Items::of(text),
    })
}

/// What is due where no choice is legal.
fn refuted(alloc: Global, j: &DmaJudge, o: &Outcome) -> Result<Answer, OutOfMemory>
    requires accounted { Accounted (dma_meaning j.now.want) o.now.best o.now.kept o.now.closed }
    requires best { o.now.best ≡ None }
    requires none { NoneLegal (shape_of j.now.want) (meets j.now.want) }
    ensures { IfOk result (OfWant j.now.want) }
{
    let text = refutation_text(alloc, j, o)?;
    Ok(Answer {
        status: Status::NoChoice,
        text: Items::of(text),
    })
}

/// The text of the canonical refutation of an outcome without a best rank.
fn refutation_text(alloc: Global, j: &DmaJudge, o: &Outcome) -> Result<Vec<u8>, OutOfMemory>
    requires accounted { Accounted (dma_meaning j.now.want) o.now.best o.now.kept o.now.closed }
    requires best { o.now.best ≡ None }
    ensures { IfOk result (λ x. IsRefutation (dma_meaning j.now.want) x.items) }
{
    let proof = canonical(alloc, j.shape(), o)?;
    let text = write_proof(alloc, &proof)?;
    Ok(text)
}
