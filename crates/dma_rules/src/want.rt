//! The requests that words ask for.
ghost use Rattle.std.specs.Prelude.{◌≡◌, ◌≤◌, ◌<◌, ◌+◌, length, find, option_copied, take, IfErr, IfOk, MatchOption, OnOk};
ghost use Rattle.std.specs.List.{list_any};
ghost use Rattle.std.specs.Str.{bytes_eq};
ghost use Rattle.res_base.specs.Lists.{Each};
ghost use Rattle.refusal.specs.Refusals.{IfFault};
ghost use Rattle.dma_rules.specs.Judged.{HasRows};
ghost use Rattle.dma_rules.specs.Streams.{shape_of, variable_of};
ghost use Rattle.dma_rules.specs.Wanted.{AreWanted, IsAsked, IsBad, IsRefused, IsWant, word_at};

use choice_rank::{Costs, Shape, VarShape};
use dma_model::{DmaRequest, DmaRow, DmaTable};
use refusal::Refusal;
use res_base::{Items, OutOfMemory, Text};
use std::alloc::Global;
use std::marker::Model;

/// Requests that words ask for, in the order of the words: 1 to 16 of a table, no two the same.
#[derive(Drop)]
pub struct DmaWant {
    requests: Items<DmaRequest>,
    shape: Shape,
}

impl Model for DmaWant {
    ghost use Rattle.std.specs.Prelude.{◌≡◌, List};
    ghost use Rattle.dma_model.specs.declared.table.DmaRequest.{DmaRequest};
    ghost use Rattle.dma_rules.specs.Streams.{shape_of};
    ghost use Rattle.dma_rules.specs.Wanted.{IsWant};

    ghost Value = { List DmaRequest };

    ghost view = { λ w. w.requests };

    ghost invariant = { λ w. IsWant w.requests × (w.shape ≡ shape_of w.requests) };
}

/// Why words ask for no requests.
#[derive(Clone, Copy, Debug, PartialEq, Eq)]
pub enum DmaFault {
    /// The word of this number, from 1, is the first that names no request, or the same as an earlier word.
    Request { number: u32 },
}

impl DmaWant {
    ghost use Rattle.dma_rules.specs.Wanted.{IsWant};

    /// The requests that words name, in the order of the words.
    ///
    /// `Request` comes exactly where a word names no request of the table or is the same as an earlier one, with the
    /// first such word, counted from 1.
    pub fn new(alloc: Global, t: &DmaTable, requests: &[Text]) -> Result<DmaWant, Refusal<DmaFault>>
        requires some { 1 ≤ length requests.now }
        requires few { length requests.now ≤ 16 }
        ensures wanted { IfOk result (AreWanted t.now requests.now) }
        ensures refused { IfErr result (λ e. IfFault e (IsRefused t.now requests.now)) }
    {
        let wanted = wanted_of(alloc, t.requests(), requests)?;
        keep_bounds(t, requests, &wanted);
        let shape = shape_of(alloc, &wanted)?;
        Ok(DmaWant {
            requests: wanted,
            shape,
        })
    }

    /// The requests, in the order of the words.
    pub fn requests(&self) -> &[DmaRequest]
        ensures { result.now ≡ self.now }
    {
        self.requests.as_slice()
    }

    /// The shape of a choice of a row for each request.
    pub(crate) fn shape(&self) -> &Shape
        ensures { result.now ≡ shape_of self.now }
    {
        &self.shape
    }

    /// That the requests keep their bounds. It stands apart, so that a proof that asks for none carries none.
    pub fn keeps_bounds(&self)
        ensures { IsWant self.now }
    {
        let _ = &self.requests;
    }
}

fn copy_rows(alloc: Global, rows: &[DmaRow]) -> Result<Items<DmaRow>, OutOfMemory>
    ensures { IfOk result (λ v. v ≡ rows.now) }
{
    let mut found = Vec::new(alloc);
    for row in rows {
        found.push(*row)?;
    }
    Ok(Items::of(found))
}

fn copy_request(alloc: Global, r: &DmaRequest) -> Result<DmaRequest, OutOfMemory>
    ensures { IfOk result (λ v. v ≡ r.now) }
{
    let name = Text::copy(alloc, r.name.as_str())?;
    let at = copy_rows(alloc, r.at.as_slice())?;
    Ok(DmaRequest { name, at })
}

/// The request of this name.
fn named<'t>(table: &'t [DmaRequest], name: &str) -> Option<&'t DmaRequest>
    ensures { option_copied result ≡ find (λ r. bytes_eq r.name name.now) table.now }
{
    table.iter().find(|r| r.name.as_str() == name)
}

fn word_at(words: &[Text], place: usize) -> &str
    requires { place < length words.now }
    ensures { result.now ≡ word_at words.now place }
{
    words[place].as_str()
}

fn has_word(words: &[Text], word: &str) -> bool
    ensures { result ≡ list_any (λ w. bytes_eq w word.now) words.now }
{
    words.iter().any(|other| other.as_str() == word)
}

/// Whether a word before this place is the same as the word there.
fn is_repeated(words: &[Text], place: usize) -> bool
    requires { place < length words.now }
    ensures { result ≡ list_any (λ w. bytes_eq w (word_at words.now place)) (take place words.now) }
{
    has_word(&words[..place], word_at(words, place))
}

/// The request that the word at this place asks for.
fn asked_at<'t>(table: &'t [DmaRequest], words: &[Text], place: usize) -> Option<&'t DmaRequest>
    requires { place < length words.now }
    ensures { MatchOption result (IsBad table.now words.now place) (λ r. IsAsked table.now words.now place r.now) }
{
    if is_repeated(words, place) {
        return None;
    }
    named(table, word_at(words, place))
}

/// Adds the request that the word at this place asks for.
fn add_asked(
    alloc: Global,
    table: &[DmaRequest],
    words: &[Text],
    place: usize,
    found: &mut Items<DmaRequest>,
) -> Result<(), Refusal<DmaFault>>
    requires place { place < length words.now }
    requires few { length words.now ≤ 16 }
    requires wanted { AreWanted table.now (take place words.now) found.old }
    ensures wanted { OnOk result (AreWanted table.now (take (place + 1) words.now) found.new) }
    ensures refused { IfErr result (λ e. IfFault e (IsRefused table.now words.now)) }
{
    let Some(request) = asked_at(table, words, place) else {
        return Err(Refusal::Fault(DmaFault::Request {
            number: place as u32 + 1,
        }));
    };
    let copied = copy_request(alloc, request)?;
    found.push(copied)?;
    Ok(())
}

/// The requests that words ask for.
fn wanted_of(
    alloc: Global,
    table: &[DmaRequest],
    words: &[Text],
) -> Result<Items<DmaRequest>, Refusal<DmaFault>>
    requires { length words.now ≤ 16 }
    ensures wanted { IfOk result (AreWanted table.now words.now) }
    ensures refused { IfErr result (λ e. IfFault e (IsRefused table.now words.now)) }
{
    let mut found = Items::of(Vec::new(alloc));
    for place in 0..words.len() {
        add_asked(alloc, table, words, place, &mut found)?;
    }
    Ok(found)
}

/// That wanted requests keep their bounds.
fn keep_bounds(table: &DmaTable, words: &[Text], wanted: &Items<DmaRequest>)
    requires some { 1 ≤ length words.now }
    requires few { length words.now ≤ 16 }
    requires wanted { AreWanted table.now words.now wanted.now }
    ensures { IsWant wanted.now }
{
    table.keeps_bounds();
    let _ = words;
    let _ = wanted;
}

/// The variable of a request.
fn variable_of(r: &DmaRequest) -> VarShape
    requires { HasRows r.now }
    ensures { result ≡ variable_of r.now }
{
    VarShape {
        size: r.at.len() as u16,
        costs: Costs::HomeFirst,
    }
}

fn variables_of(alloc: Global, requests: &[DmaRequest]) -> Result<Vec<VarShape>, OutOfMemory>
    requires { Each HasRows requests.now }
    ensures { IfOk result (λ vars. vars.items ≡ shape_of requests.now) }
{
    let mut vars = Vec::new(alloc);
    for request in requests {
        vars.push(variable_of(request))?;
    }
    Ok(vars)
}

/// The shape of a choice of a row for each request.
fn shape_of(alloc: Global, requests: &Items<DmaRequest>) -> Result<Shape, OutOfMemory>
    requires { IsWant requests.now }
    ensures { IfOk result (λ shape. shape ≡ shape_of requests.now) }
{
    let vars = variables_of(alloc, requests.as_slice())?;
    match Shape::new(alloc, vars) {
        Ok(shape) => Ok(shape),
        // The shape is narrow, so that memory alone is a fault here.
        Err(_) => Err(OutOfMemory),
    }
}
