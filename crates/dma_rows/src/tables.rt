//! Which fault comes first, and what the requests say.
use dma_model::{DmaRequest, DmaTable};
use dma_table::{TableFault, read_dma};
use refusal::Refusal;
use std::alloc::{AllocError, Global};
use std::test::Fail;

/// A text, and what is then answered; one case a line.
fn cases() -> &'static str {
    r#"{"dma":[{"name":"X","at":[[1,0,0]]}]} # read
{"dma":[{"name":"X","at":[[1,0,0]]}] # not json
{"dmas":[]} # missing /dma
[] # missing /dma
{"dma":null} # field /dma
{"dma":{}} # field /dma
{"dma":[]} # read
{"dma":[5]} # field /dma/0
{"dma":[{}]} # missing /dma/0/name
{"dma":[{"name":5}]} # field /dma/0/name
{"dma":[{"name":""}]} # field /dma/0/name
{"dma":[{"name":"a b"}]} # field /dma/0/name
{"dma":[{"name":"-","at":[[2,7,7]]}]} # read
{"dma":[{"name":"X"}]} # missing /dma/0/at
{"dma":[{"name":"X","at":{}}]} # field /dma/0/at
{"dma":[{"name":"X","at":[]}]} # field /dma/0/at
{"dma":[{"name":"X","at":[[1,0,0],[1,0,1],[1,0,2],[1,0,3],[1,0,4],[1,0,5],[1,0,6],[1,0,7]]}]} # read
{"dma":[{"name":"X","at":[[1,0,0],[1,0,1],[1,0,2],[1,0,3],[1,0,4],[1,0,5],[1,0,6],[1,0,7],5]}]} # field /dma/0/at
{"dma":[{"name":"X","at":[[1,0,0],[1,0]]}]} # field /dma/0/at/1
{"dma":[{"name":"X","at":[[1,0,0,0]]}]} # field /dma/0/at/0
{"dma":[{"name":"X","at":[[0,0,0]]}]} # field /dma/0/at/0
{"dma":[{"name":"X","at":[[3,0,0]]}]} # field /dma/0/at/0
{"dma":[{"name":"X","at":[[1,8,0]]}]} # field /dma/0/at/0
{"dma":[{"name":"X","at":[[1,0,8]]}]} # field /dma/0/at/0
{"dma":[{"name":"X","at":[[1,0,0.0]]}]} # field /dma/0/at/0
{"dma":[{"name":"X","at":[[1,0,0],[1,0,1],[1,0,0]]}]} # repeated /dma/0/at/2
{"dma":[{"name":"X","at":[[1,0,0]]},{"name":"X","at":5}]} # repeated /dma/1/name
{"dma":[{"name":"X","at":5},{"name":"X"}]} # field /dma/0/at"#
}

/// What is answered, in words.
fn answer(alloc: Global, text: &str) -> Result<String, AllocError> {
    match read_dma(alloc, text.as_bytes()) {
        Ok(_) => String::from_str(alloc, "read"),
        Err(Refusal::Fault(TableFault::NotJson)) => String::from_str(alloc, "not json"),
        Err(Refusal::Fault(TableFault::Missing { path })) => format!(in alloc;
            "missing {}",
            path.as_str()
        ),
        Err(Refusal::Fault(TableFault::BadField { path })) => format!(in alloc;
            "field {}",
            path.as_str()
        ),
        Err(Refusal::Fault(TableFault::Repeated { path })) => format!(in alloc;
            "repeated {}",
            path.as_str()
        ),
        Err(Refusal::Fault(TableFault::ResetIllegal { limit })) => format!(in alloc;
            "reset {}",
            limit.number()
        ),
        Err(Refusal::OutOfMemory) => Err(AllocError),
    }
}

/// Whether a line of the cases holds.
fn holds(alloc: Global, case: &str) -> Result<bool, AllocError> {
    let Some((text, wanted)) = case.split_once(" # ") else {
        return Ok(false);
    };
    let told = answer(alloc, text)?;
    Ok(told.as_str() == wanted)
}

#[test]
fn faults_in_order(rt: HostRuntime) -> Result<(), Fail> {
    for case in cases().split('\n') {
        let held = holds(rt.alloc(), case)?;
        assert!(&rt; held, "{case}");
    }
    Ok(())
}

/// A table of so many requests of one row each.
fn many(alloc: Global, count: usize) -> Result<String, AllocError> {
    let mut text = String::from_str(alloc, "{\"dma\":[")?;
    for i in 0..count {
        if i > 0 {
            text.push_str(",")?;
        }
        let request = format!(in alloc; "{{\"name\":\"R{i}\",\"at\":[[1,0,0]]}}")?;
        text.push_str(request.as_str())?;
    }
    text.push_str("]}")?;
    Ok(text)
}

#[test]
fn two_hundred_requests_and_no_more(rt: HostRuntime) -> Result<(), Fail> {
    let alloc = rt.alloc();
    let most = answer(alloc, many(alloc, 200)?.as_str())?;
    assert_eq!(&rt; most.as_str(), "read");
    let more = answer(alloc, many(alloc, 201)?.as_str())?;
    assert_eq!(&rt; more.as_str(), "field /dma");
    Ok(())
}

fn is_adc1(request: &DmaRequest) -> bool {
    match request.at.as_slice() {
        [first, second] => {
            first.controller == 2
                && first.channel == 0
                && second.stream == 4
                && request.name.as_str() == "ADC1"
        }
        _ => false,
    }
}

fn is_right(table: &DmaTable) -> bool {
    match table.requests() {
        [_, second] => is_adc1(second),
        _ => false,
    }
}

#[test]
fn requests_in_the_order_of_the_table(rt: HostRuntime) -> Result<(), Fail> {
    let text =
        r#"{"dma": [{"name": "SPI1_RX", "at": [[2, 0, 3], [2, 2, 3]]}, {"name": "ADC1", "at": [[2, 0, 0], [2, 4, 0]]}]}"#;
    let table = read_dma(rt.alloc(), text.as_bytes())?;
    assert!(&rt; is_right(&table));
    Ok(())
}
