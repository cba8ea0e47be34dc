//! The judge of boxes of choices of rows.
ghost use Rattle.std.specs.Prelude.{◌≡◌, ◌≤◌, ◌<◌, ℕ, length, IfOk, IsOkAnd};
ghost use Rattle.res_base.specs.VarSet.{in_set};
ghost use Rattle.box_split.specs.BoxIn.{box_in, runs_in};
ghost use Rattle.box_split.specs.Boxes.{IsBox};
ghost use Rattle.pin_match.specs.Sets.{fits_in};
ghost use Rattle.dma_rules.specs.Judged.{CanBeJudged, can_have, dma_meaning, dma_verdict, hall_in};
ghost use Rattle.dma_rules.specs.Lawful.{dma_lawful, judged_prop};
ghost use Rattle.dma_rules.specs.Room.{IsRoom};
ghost use Rattle.dma_rules.specs.Streams.{shape_of};

use crate::streams::{add_streams, request_at, rows_in};
use crate::want::DmaWant;
use box_split::{BoxBuf, is_single};
use choice_rank::Shape;
use dma_model::DmaRequest;
use pin_match::Matcher;
use res_base::{OutOfMemory, VarSet};
use search_api::{Class, Judge, Reason, Verdict};
use std::alloc::Global;

/// Judges boxes of choices of a row for each wanted request.
#[derive(Drop)]
pub struct DmaJudge {
    pub want: DmaWant,
    ghost judged: { CanBeJudged want } by { judged_prop want },
}

/// Room for the streams that each request can have in a box.
#[derive(Drop)]
pub struct DmaRoom {
    pub(crate) sets: Vec<VarSet>,
    pub(crate) matcher: Matcher,
}

/// That wanted requests have what a judge keeps of them.
fn can_be_judged(w: &DmaWant)
    ensures { CanBeJudged w.now }
{
    w.keeps_bounds();
}

impl DmaJudge {
    /// The judge of wanted requests. It takes no memory.
    pub fn new(_alloc: Global, w: DmaWant) -> Result<DmaJudge, OutOfMemory>
        ensures { IsOkAnd result (λ j. j.want ≡ w) }
    {
        can_be_judged(&w);
        Ok(DmaJudge { want: w })
    }

    pub fn want(&self) -> &DmaWant
        ensures { result.now ≡ self.now.want }
    {
        &self.want
    }
}

impl Judge for DmaJudge {
    type Scratch = DmaRoom;

    ghost meaning = { λ j. dma_meaning j.want };

    ghost fits = { λ j s. IsRoom j.want s };

    fn shape(&self) -> &Shape {
        self.want.shape()
    }

    fn scratch(&self, alloc: Global) -> Result<DmaRoom, OutOfMemory> {
        room_for(alloc, &self.want)
    }

    fn judge(&self, scratch: &mut DmaRoom, b: &BoxBuf) -> Verdict {
        judge_streams(&self.want, scratch, b)
    }

    ghost lawful = { λ j. dma_lawful j.want j.judged };
}

/// Room for wanted requests.
fn room_for(alloc: Global, w: &DmaWant) -> Result<DmaRoom, OutOfMemory>
    ensures { IfOk result (IsRoom w.now) }
{
    can_be_judged(w);
    let count = w.requests().len();
    let sets = vec![in alloc; VarSet::new(); count]?;
    let matcher = Matcher::new(count, 192)?;
    Ok(DmaRoom { sets, matcher })
}

/// The streams that the request at a place can have in a box.
fn can_have(requests: &[DmaRequest], lo: &[u16], hi: &[u16], place: usize) -> VarSet
    requires place { place < length requests.now }
    requires judged { CanBeJudged requests.now }
    requires low { length requests.now ≤ length lo.now }
    requires high { length requests.now ≤ length hi.now }
    requires is_box { IsBox (shape_of requests.now) (runs_in (length requests.now) lo.now hi.now) }
    ensures { (s : ℕ) → in_set result s ≡ can_have requests.now (runs_in (length requests.now) lo.now hi.now) place s }
{
    let mut found = VarSet::new();
    let request = request_at(requests, place);
    add_streams(&mut found, rows_in(request, lo[place], hi[place]));
    found
}

/// Makes each set that of its request.
fn fill(sets: &mut [VarSet], requests: &[DmaRequest], lo: &[u16], hi: &[u16])
    requires sets { length sets.old ≡ length requests.now }
    requires judged { CanBeJudged requests.now }
    requires low { length requests.now ≤ length lo.now }
    requires high { length requests.now ≤ length hi.now }
    requires is_box { IsBox (shape_of requests.now) (runs_in (length requests.now) lo.now hi.now) }
    ensures { fits_in sets.new ≡ can_have requests.now (runs_in (length requests.now) lo.now hi.now) }
{
    for place in 0..requests.len() {
        sets[place] = can_have(requests, lo, hi, place);
    }
}

/// The requests that are more than the streams that they can have in a box.
fn hall(room: &mut DmaRoom, requests: &[DmaRequest], lo: &[u16], hi: &[u16]) -> Option<VarSet>
    requires room { IsRoom requests.now room.old }
    requires judged { CanBeJudged requests.now }
    requires low { length requests.now ≤ length lo.now }
    requires high { length requests.now ≤ length hi.now }
    requires is_box { IsBox (shape_of requests.now) (runs_in (length requests.now) lo.now hi.now) }
    ensures hall { result ≡ hall_in requests.now (runs_in (length requests.now) lo.now hi.now) }
    ensures room { IsRoom requests.now room.new }
{
    fill(room.sets.as_mut_slice(), requests, lo, hi);
    room.matcher.hall(room.sets.as_slice())
}

/// The requests that are too many in a box of wanted requests.
fn hall_of(w: &DmaWant, room: &mut DmaRoom, b: &BoxBuf) -> Option<VarSet>
    requires room { IsRoom w.now room.old }
    requires is_box { IsBox (shape_of w.now) (box_in (shape_of w.now) b.now) }
    ensures hall { result ≡ hall_in w.now (box_in (shape_of w.now) b.now) }
    ensures room { IsRoom w.now room.new }
{
    can_be_judged(w);
    hall(room, w.requests(), &b.lo, &b.hi)
}

/// The verdict on a box.
fn judge_streams(w: &DmaWant, room: &mut DmaRoom, b: &BoxBuf) -> Verdict
    requires room { IsRoom w.now room.old }
    requires is_box { IsBox (shape_of w.now) (box_in (shape_of w.now) b.now) }
    ensures verdict { result ≡ dma_verdict w.now (box_in (shape_of w.now) b.now) }
    ensures room { IsRoom w.now room.new }
{
    match hall_of(w, room, b) {
        Some(vars) => {
            let class = Class::Pins;
            Verdict::Bad(Reason::Hall { class, vars })
        }
        None if is_single(w.shape(), b) => Verdict::Legal,
        None => Verdict::Open,
    }
}
