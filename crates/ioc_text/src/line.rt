//! A line with a named key.
use res_base::Items;

/// A line of a project's text that has a named key: its number from 1, and key and value with escapes undone.
#[derive(Debug, Drop)]
pub struct Line {
    pub number: u32,
    pub key: Items<u8>,
    pub value: Items<u8>,
}
