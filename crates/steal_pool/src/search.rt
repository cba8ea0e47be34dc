//! A search by workers, with a word of its own.
ghost use Rattle.std.specs.Prelude.{◌≤◌, IfOk};
ghost use Rattle.choice_rank.specs.Least.{IsAnswer};
ghost use Rattle.search_api.specs.Accounts.{Accounted};

use crate::workers::pool;
use best_word::BestWord;
use res_base::OutOfMemory;
use res_io::Gate;
use search_api::{Judge, Outcome};
use serial_search::search;
use std::alloc::Global;
use std::sync::Wait;
use std::thread::Threads;

/// Searches the boxes of a judge's shape by 1 to 16 workers at a time, as `pool` does, over a word that it makes itself. One
/// worker shares nothing, so it searches without a word and without deques.
pub fn search_by<R: Threads + Wait + Sync, J: Judge + Sync, G: Gate + Sync>(
    rt: &R,
    alloc: Global,
    j: &J,
    workers: u32,
    gate: &G,
) -> Result<Outcome, OutOfMemory>
    requires { (1 ≤ workers) × (workers ≤ 16) }
    ensures accounted { IfOk result (λ o. Accounted (J.meaning j.now) o.best o.kept o.closed) }
    ensures answer { IfOk result (λ o. IsAnswer (J.meaning j.now).shape (J.meaning j.now).legal o.best) }
{
    if workers == 1 {
        return search(alloc, j);
    }
    let (word, mut seat) = BestWord::new(alloc, j)?;
    pool(rt, alloc, j, workers, gate, &word, &mut seat)
}
