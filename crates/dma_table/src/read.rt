//! The list of requests, from the bytes of a table.
ghost use Rattle.table_members.specs.Places.{Reads};
ghost use Rattle.refusal.specs.Refusals.{Gives};
ghost use Rattle.serde_json.specs.View.{view};
ghost use Rattle.dma_table.specs.Reading.{dma_of, requests};

use crate::entries::requests_of;
use dma_model::{DmaRequest, DmaTable};
use refusal::Refusal;
use res_base::Items;
use serde_json::Value;
use std::alloc::Global;
use table_members::{Flaw, Key, Spot, TableFault, member_of, needed, spelled_fault, value_of};

/// The member `dma` of a table.
#[tactic(auto, unfolding(crate::specs::Reading::requests))]
fn requests(alloc: Global, root: &Value) -> Result<Items<DmaRequest>, Refusal<Flaw>>
    ensures { Reads (λ rs. rs) result (requests (view root.now)) }
{
    let value = needed(member_of(root, Key::Dma), Spot::Top(Key::Dma))?;
    requests_of(alloc, value)
}

#[tactic(auto, unfolding(crate::specs::Reading::dma_of))]
fn list_of(alloc: Global, bytes: &[u8]) -> Result<Items<DmaRequest>, Refusal<Flaw>>
    ensures { Reads (λ rs. rs) result (dma_of bytes.now) }
{
    let root = value_of(alloc, bytes)?;
    requests(alloc, &root)
}

/// Reads the DMA requests of a table from its JSON text; no other member of the table is looked at.
///
/// `/dma` is a list of at most 200 objects. Each has a `name` of 1 to 64 printing bytes without blanks, which no other
/// has, and in `at` a list of 1 to 8 distinct rows: controller 1 or 2, stream 0 to 7, channel 0 to 7. The fault is the
/// first in this order, with its path, as in `/dma/0/at/1`.
pub fn read_dma(alloc: Global, text: &[u8]) -> Result<DmaTable, Refusal<TableFault>>
    ensures { Gives (λ t. t) result (dma_of text.now) }
{
    match list_of(alloc, text) {
        Ok(requests) => Ok(DmaTable::of(requests)),
        Err(Refusal::Fault(flaw)) => Err(Refusal::Fault(spelled_fault(alloc, flaw)?)),
        Err(Refusal::OutOfMemory) => Err(Refusal::OutOfMemory),
    }
}
