//! Wanted requests and what is due for them.
ghost use Rattle.std.specs.Prelude.{◌≤◌};

use answers::{Answer, Status};
use dma_model::DmaTable;
use dma_rules::{DmaFault, DmaWant, check_dma, dma_answer};
use dma_table::read_dma;
use refusal::Refusal;
use refutation::{CheckFault, read_proof};
use res_base::Text;
use res_io::NoGate;
use std::alloc::{AllocGlobal, Global};
use std::sync::Wait;
use std::test::Fail;
use std::thread::Threads;

/// Requests of which the last two have one stream each, and it is the same.
fn shared() -> &'static str {
    r#"{"dma": [{"name": "SPI1_RX", "at": [[2, 0, 3], [2, 2, 3]]}, {"name": "ADC1", "at": [[2, 0, 0], [2, 4, 0]]}, {"name": "USART1_RX", "at": [[2, 2, 4], [2, 5, 4]]}, {"name": "X", "at": [[1, 0, 0]]}, {"name": "Y", "at": [[1, 0, 1]]}]}"#
}

/// A request with two channels of one stream, and two that would have the same stream first.
fn channels() -> &'static str {
    r#"{"dma": [{"name": "A", "at": [[1, 0, 0], [1, 0, 1]]}, {"name": "B", "at": [[1, 0, 2], [1, 1, 0]]}, {"name": "C", "at": [[1, 0, 7]]}, {"name": "D", "at": [[2, 0, 0]]}]}"#
}

fn words_of(alloc: Global, line: &str) -> Result<Vec<Text>, Fail> {
    let mut words = Vec::new(alloc);
    for word in line.split(' ') {
        words.push(Text::copy(alloc, word)?)?;
    }
    Ok(words)
}

/// The requests that words ask for, or the number of the first that is bad; 17 where they are too many.
fn wanted(alloc: Global, table: &DmaTable, words: &[Text]) -> Result<Result<DmaWant, u32>, Fail> {
    if words.len() < 1 || words.len() > 16 {
        return Ok(Err(17));
    }
    match DmaWant::new(alloc, table, words) {
        Ok(want) => Ok(Ok(want)),
        Err(Refusal::Fault(DmaFault::Request { number })) => Ok(Err(number)),
        Err(Refusal::OutOfMemory) => Ok(Err(18)),
    }
}

fn want_of(alloc: Global, text: &str, line: &str) -> Result<Result<DmaWant, u32>, Fail> {
    let table = read_dma(alloc, text.as_bytes())?;
    let words = words_of(alloc, line)?;
    wanted(alloc, &table, words.as_slice())
}

/// Whether this is due for these words, by so many workers.
fn is_due_by<R: Threads + Wait + Sync>(
    rt: &R,
    alloc: Global,
    table: &str,
    line: &str,
    workers: u32,
    status: Status,
    text: &str,
) -> Result<bool, Fail>
    requires { (1 ≤ workers) × (workers ≤ 16) }
{
    let Ok(want) = want_of(alloc, table, line)? else {
        return Ok(false);
    };
    let answer: Answer = dma_answer(rt, alloc, want, workers, &NoGate)?;
    Ok(answer.status == status && answer.text.as_slice() == text.as_bytes())
}

/// Whether this is due for these words, by one worker and by four.
fn is_due(
    rt: &(impl Threads + Wait + Sync + AllocGlobal),
    table: &str,
    line: &str,
    status: Status,
    text: &str,
) -> Result<bool, Fail> {
    let alone = is_due_by(rt, rt.alloc(), table, line, 1, status, text)?;
    let together = is_due_by(rt, rt.alloc(), table, line, 4, status, text)?;
    Ok(alone && together)
}

#[test]
fn the_second_row_of_one_request_serves_all(rt: HostRuntime) -> Result<(), Fail> {
    let held = is_due(
        &rt,
        shared(),
        "SPI1_RX ADC1 USART1_RX",
        Status::Done,
        "rank 10 cost 1 of 8\nSPI1_RX dma 2 stream 0 channel 3\nADC1 dma 2 stream 4 channel 0\nUSART1_RX dma 2 stream 2 channel 4\n",
    )?;
    assert!(&rt; held);
    Ok(())
}

#[test]
fn two_requests_of_one_stream_are_refuted(rt: HostRuntime) -> Result<(), Fail> {
    let held = is_due(
        &rt,
        shared(),
        "X Y",
        Status::NoChoice,
        "proof 1\nbound none\nH pins 0 1\nend\n",
    )?;
    assert!(rt; held);
    Ok(())
}

#[test]
fn a_request_may_have_two_channels_of_one_stream(rt: HostRuntime) -> Result<(), Fail> {
    let held = is_due(
        &rt,
        channels(),
        "A B",
        Status::Done,
        "rank 5 cost 1 of 4\nA dma 1 stream 0 channel 0\nB dma 1 stream 1 channel 0\n",
    )?;
    assert!(rt; held);
    Ok(())
}

#[test]
fn two_channels_of_one_stream_serve_one_request(rt: HostRuntime) -> Result<(), Fail> {
    let held = is_due(
        &rt,
        channels(),
        "D C A",
        Status::NoChoice,
        "proof 1\nbound none\nH pins 1 2\nend\n",
    )?;
    assert!(rt; held);
    Ok(())
}

#[test]
fn streams_of_two_controllers_are_two(rt: HostRuntime) -> Result<(), Fail> {
    let held = is_due(
        &rt,
        channels(),
        "D C",
        Status::Done,
        "rank 0 cost 0 of 1\nD dma 2 stream 0 channel 0\nC dma 1 stream 0 channel 7\n",
    )?;
    assert!(rt; held);
    Ok(())
}

/// Words, and the number of the first that is bad.
fn bad_words() -> &'static [(&'static str, u32)] {
    &[
        ("X Y", 0),
        ("X X", 2),
        ("X Z", 2),
        ("Z X X", 1),
        ("X Y X Z", 3),
        ("SPI1_R", 1),
    ]
}

/// The number of the first bad word, 0 where none is.
fn first_bad(alloc: Global, line: &str) -> Result<u32, Fail> {
    match want_of(alloc, shared(), line)? {
        Ok(_) => Ok(0),
        Err(number) => Ok(number),
    }
}

#[test]
fn the_first_bad_word_is_counted_from_one(rt: HostRuntime) -> Result<(), Fail> {
    for (line, number) in bad_words() {
        let found = first_bad(rt.alloc(), line)?;
        assert_eq!(&rt; found, *number, "{line}");
    }
    Ok(())
}

/// Words, the text of a refutation, and what is said of it.
fn proofs() -> &'static [(&'static str, &'static str, Result<Option<u64>, u32>)] {
    &[
        ("X Y", "proof 1\nbound none\nH pins 0 1\nend\n", Ok(None)),
        ("X Y", "proof 1\nbound none\nH exti 0 1\nend\n", Err(0)),
        ("X Y", "proof 1\nbound none\nL 3\nend\n", Err(0)),
        ("X Y", "proof 1\nbound none\nH pins 0\nend\n", Err(0)),
        ("X Y", "proof 1\nbound none\nH pins 0 1 2\nend\n", Err(0)),
        ("X ADC1", "proof 1\nbound none\nH pins 0 1\nend\n", Err(0)),
        (
            "SPI1_RX ADC1 USART1_RX",
            "proof 1\nbound 10\nS 0 0\nS 1 0\nH pins 0 1\nS 2 0\nW\nR\nR\nend\n",
            Ok(Some(10)),
        ),
        (
            "SPI1_RX ADC1 USART1_RX",
            "proof 1\nbound 9\nS 0 0\nS 1 0\nH pins 0 1\nS 2 0\nW\nR\nR\nend\n",
            Err(4),
        ),
    ]
}

/// What a checker says of a text; 99 where nothing is checked.
fn checked(alloc: Global, line: &str, text: &str) -> Result<Result<Option<u64>, u32>, Fail> {
    let Ok(want) = want_of(alloc, shared(), line)? else {
        return Ok(Err(99));
    };
    if text.len() > 1000 {
        return Ok(Err(99));
    }
    let proof = read_proof(alloc, text.as_bytes())?;
    if proof.nodes.len() > 100 {
        return Ok(Err(99));
    }
    match check_dma(alloc, &want, &proof) {
        Ok(bound) => Ok(Ok(bound)),
        Err(Refusal::Fault(CheckFault::Rejected { node })) => Ok(Err(node)),
        Err(Refusal::OutOfMemory) => Ok(Err(99)),
    }
}

#[test]
fn refutations_are_checked_by_streams(rt: HostRuntime) -> Result<(), Fail> {
    for (line, text, wanted) in proofs() {
        let found = checked(rt.alloc(), line, text)?;
        assert_eq!(&rt; found, *wanted, "{text}");
    }
    Ok(())
}
