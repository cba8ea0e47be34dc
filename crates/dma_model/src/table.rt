//! What a table says of DMA.
ghost use Rattle.std.specs.Prelude.{◌≡◌};

use res_base::{Items, Text};
use std::marker::Model;

/// A stream of a DMA controller, and its channel to which a request is wired (RM0090, DMA request mapping):
/// controller 1 or 2, stream 0 to 7, channel 0 to 7.
#[derive(Clone, Copy, Debug, PartialEq, Eq)]
pub struct DmaRow {
    pub controller: u8,
    pub stream: u8,
    pub channel: u8,
}

/// A request of a peripheral, and the rows in which it can be served.
#[derive(Debug, Drop)]
pub struct DmaRequest {
    pub name: Text,
    pub at: Items<DmaRow>,
}

/// The requests of a table, in its order: at most 200, with names that differ, and each with 1 to 8 rows that differ.
#[derive(Debug, Drop)]
pub struct DmaTable {
    requests: Items<DmaRequest>,
}

impl Model for DmaTable {
    ghost use Rattle.std.specs.Prelude.{List};
    ghost use Rattle.dma_model.specs.declared.table.DmaRequest.{DmaRequest};

    ghost Value = { List DmaRequest };

    ghost use Rattle.dma_model.specs.Requests.{AreRequests};

    ghost view = { λ t. t.requests };

    ghost invariant = { λ t. AreRequests t.requests };
}

impl DmaTable {
    ghost use Rattle.dma_model.specs.Requests.{AreRequests};

    /// The table of these requests.
    pub fn of(requests: Items<DmaRequest>) -> DmaTable
        requires { AreRequests requests }
        ensures { result ≡ requests }
    {
        DmaTable { requests }
    }

    /// The requests, in the order of the table.
    pub fn requests(&self) -> &[DmaRequest]
        ensures { result.now ≡ self.now }
    {
        self.requests.as_slice()
    }

    /// That the requests keep their bounds. It stands apart, so that a proof that asks for none carries none.
    pub fn keeps_bounds(&self)
        ensures { AreRequests self.now }
    {
        let _ = &self.requests;
    }
}
