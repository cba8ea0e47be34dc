//! What words have given so far.
use res_base::{Items, Text};
use res_model::Free;

/// An option of the command line. Each but `--proof` has the next word as its value.
#[derive(Clone, Copy, Debug, PartialEq, Eq)]
pub enum Flag {
    Vdd,
    Need,
    Hclk,
    Pclk1,
    Pclk2,
    Free,
    Workers,
    Proof,
}

/// What the options have given so far. One that was not given has its default.
#[derive(Debug, Drop)]
pub struct Given {
    pub vdd: Option<u32>,
    pub needs: Items<Text>,
    pub hclk: Option<u64>,
    pub pclk1: Option<u64>,
    pub pclk2: Option<u64>,
    pub free: Option<Free>,
    pub workers: Option<u32>,
    pub proof: bool,
}

/// The names of a table and a project, and what the options behind them gave.
#[derive(Debug, Drop)]
pub struct Named {
    pub tables: Text,
    pub project: Text,
    pub given: Given,
}
