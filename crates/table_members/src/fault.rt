//! Why a table is refused.
use res_base::Text;
use res_model::Limit;

/// A table is refused. Paths are those of JSON Pointer, as `/clock/hpre/0`.
#[derive(Debug, Drop)]
pub enum TableFault {
    /// The bytes are no JSON text.
    NotJson,
    /// A member is not there.
    Missing { path: Text },
    /// A member breaks its form.
    BadField { path: Text },
    /// An entry equals an earlier one.
    Repeated { path: Text },
    /// The state after reset would break this limit.
    ResetIllegal { limit: Limit },
}
