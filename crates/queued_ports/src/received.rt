//! What a receive finds.

use rte_value::{Code, Value};

/// RTE_E_OK.
pub(crate) const OK: Code = 0;

/// RTE_E_LOST_DATA: a value was discarded before the one that is received.
pub(crate) const LOST_DATA: Code = 64;

/// RTE_E_LIMIT: a value was discarded since a queue was full.
pub(crate) const LIMIT: Code = 130;

/// RTE_E_NO_DATA: there is no value.
pub(crate) const NO_DATA: Code = 131;

/// What a receive finds (SWS_RTE, Rte_Receive).
#[derive(Clone, Copy)]
pub struct Received {
    /// 0 RTE_E_OK, 64 RTE_E_LOST_DATA or 131 RTE_E_NO_DATA.
    pub code: Code,
    /// The oldest value of the queue, and no words with 131.
    pub value: Value,
}
