//! Tests alone, on the register machine: what each rule forbids, and whole runs of the accesses that settings get, from
//! reset to the end.
#![tactic(auto)]

#[cfg(test)]
mod rules;
#[cfg(test)]
mod runs;
#[cfg(test)]
mod settings;
#[cfg(test)]
mod tests;
