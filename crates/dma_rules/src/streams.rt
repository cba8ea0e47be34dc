//! Streams and rows of requests.
ghost use Rattle.std.specs.Prelude.{◌≡◌, ◌≤◌, ◌<◌, ◌+◌, ◌||◌, ℕ, drop, length, slice_index_or};
ghost use Rattle.std.specs.List.{list_any};
ghost use Rattle.res_base.specs.Lists.{Each};
ghost use Rattle.res_base.specs.VarSet.{in_set};
ghost use Rattle.choice_rank.specs.Choices.{IsChoice};
ghost use Rattle.dma_rules.specs.Judged.{IsStream, has_stream, rows_in, stream_of};
ghost use Rattle.dma_rules.specs.Streams.{is_one_stream, meets, no_request, row_at, row_of, rows_of, shape_of};

use dma_model::{DmaRequest, DmaRow};
use res_base::VarSet;

/// The number of a row's stream: 0 to 7 for controller 1, 8 to 15 for controller 2.
fn stream_of(r: DmaRow) -> u8
    requires { IsStream r }
    ensures number { result ≡ stream_of r }
    ensures small { result < 16 }
{
    8 * (r.controller - 1) + r.stream
}

/// Adds the streams of rows.
pub(crate) fn add_streams(found: &mut VarSet, rows: &[DmaRow])
    requires { Each IsStream rows.now }
    ensures { (s : ℕ) → in_set found.new s ≡ (in_set found.old s || has_stream rows.now s) }
{
    for r in rows {
        found.put(stream_of(*r));
    }
}

/// The rows of a request from one position to another.
pub(crate) fn rows_in(r: &DmaRequest, low: u16, high: u16) -> &[DmaRow]
    requires ordered { low ≤ high }
    requires inside { high < length r.now.at }
    ensures { result.now ≡ rows_in r.now record { low = low; high = high } }
{
    &r.at.as_slice()[low as usize..high as usize + 1]
}

/// The request at a place.
pub(crate) fn request_at(requests: &[DmaRequest], place: usize) -> &DmaRequest
    requires { place < length requests.now }
    ensures { result.now ≡ slice_index_or requests.now place no_request }
{
    &requests[place]
}

/// The row of a request at a position.
pub(crate) fn row_at(r: &DmaRequest, position: u16) -> DmaRow
    requires { position < length r.now.at }
    ensures { result ≡ row_at r.now position }
{
    r.at.as_slice()[position as usize]
}

/// That a choice has a position and a row for each request.
pub(crate) fn has_rows(requests: &[DmaRequest], at: &[u16])
    requires { IsChoice (shape_of requests.now) at.now }
    ensures positions { length at.now ≡ length requests.now }
    ensures rows { length (rows_of requests.now at.now) ≡ length requests.now }
{
    let _ = requests;
    let _ = at;
}

/// The row that the request at a place has in a choice.
pub(crate) fn row_of(requests: &[DmaRequest], at: &[u16], place: usize) -> DmaRow
    requires place { place < length requests.now }
    requires choice { IsChoice (shape_of requests.now) at.now }
    ensures { result ≡ row_of requests.now at.now place }
{
    has_rows(requests, at);
    row_at(request_at(requests, place), at[place])
}

fn is_one_stream(a: DmaRow, b: DmaRow) -> bool
    ensures { result ≡ is_one_stream a b }
{
    a.controller == b.controller && a.stream == b.stream
}

/// Whether the request at a place takes the stream of a row.
fn takes_stream_of(row: DmaRow, requests: &[DmaRequest], at: &[u16], place: usize) -> bool
    requires place { place < length requests.now }
    requires choice { IsChoice (shape_of requests.now) at.now }
    ensures { result ≡ is_one_stream row (row_of requests.now at.now place) }
{
    is_one_stream(row, row_of(requests, at, place))
}

/// Whether a request behind a place takes the stream of the one there.
fn is_taken_again(requests: &[DmaRequest], at: &[u16], place: usize) -> bool
    requires place { place < length requests.now }
    requires choice { IsChoice (shape_of requests.now) at.now }
    ensures { result ≡ list_any (is_one_stream (row_of requests.now at.now place)) (drop (place + 1) (rows_of requests.now at.now)) }
{
    let row = row_of(requests, at, place);
    for later in place + 1..requests.len() {
        if takes_stream_of(row, requests, at, later) {
            return true;
        }
    }
    false
}

/// Whether no two requests take one stream in a choice.
pub(crate) fn meets(requests: &[DmaRequest], at: &[u16]) -> bool
    requires { IsChoice (shape_of requests.now) at.now }
    ensures { result ≡ meets requests.now at.now }
{
    for place in 0..requests.len() {
        if is_taken_again(requests, at, place) {
            return false;
        }
    }
    true
}
