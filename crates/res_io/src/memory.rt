//! A file in memory.
use res_base::{Items, Text};

/// A file in memory.
#[derive(Debug, Drop)]
pub struct MemFile {
    pub name: Text,
    pub bytes: Items<u8>,
}
