//! Lines of words, and what they ask for.
use crate::faults::words_of;
use cmd_words::{Command, Free, Opts, read_words};
use std::alloc::Global;
use std::test::Fail;

fn read(alloc: Global, line: &str) -> Result<Option<Command>, Fail> {
    let words = words_of(alloc, line)?;
    Ok(read_words(alloc, words.as_slice()).ok())
}

/// The word of a command, and how many workers it asks for.
fn asked(alloc: Global, line: &str) -> Result<(&'static str, u32), Fail> {
    let Some(command) = read(alloc, line)? else {
        return Ok(("", 0));
    };
    let name = match &command {
        Command::Pins { .. } => "pins",
        Command::Tree { .. } => "tree",
        Command::Resolve { .. } => "resolve",
        Command::Check { .. } => "check",
        Command::Case { .. } => "case",
        Command::Can { .. } => "can",
        Command::I2s { .. } => "i2s",
        Command::Dma { .. } => "dma",
        Command::Ioc { .. } => "ioc",
        Command::Board { .. } => "board",
        Command::Explain { .. } => "explain",
        Command::Trace { .. } => "trace",
    };
    Ok((name, command.workers()))
}

#[test]
fn each_command_is_read(rt: HostRuntime) -> Result<(), Fail> {
    let rows = [
        ("pins T B --need I2C1_SCL --need --need", "pins", 1),
        ("tree T B --vdd 0", "tree", 1),
        ("resolve T B", "resolve", 1),
        ("resolve T B --proof --workers 16", "resolve", 16),
        ("check T B --vdd --free none", "check", 1),
        ("case 18446744073709551615 --workers 3", "case", 3),
        ("can T P 1000000 1 999", "can", 1),
        ("i2s T P 192000", "i2s", 1),
        (
            "dma T 1 2 3 4 5 6 7 8 9 10 11 12 13 14 15 16 --workers 2",
            "dma",
            2,
        ),
        ("ioc T C --need I2C1_SCL --workers 4", "ioc", 4),
        ("board T E --hclk 168000000 --vdd 1800", "board", 1),
        ("explain T A --free pins", "explain", 1),
        ("trace T A C ANSWERS --vdd 1800", "trace", 1),
    ];
    for (line, name, workers) in rows {
        let (is_name, is_workers) = asked(rt.alloc(), line)?;
        assert_eq!(rt; is_name, name, "{line}");
        assert_eq!(rt; is_workers, workers, "{line}");
    }
    Ok(())
}

/// What options ask for, but the names of the needs.
#[derive(Clone, Copy)]
struct Wanted {
    vdd: u32,
    needs: usize,
    hclk: Option<u64>,
    pclk1: Option<u64>,
    pclk2: Option<u64>,
    free: Free,
}

fn of_opts(opts: &Opts) -> Wanted {
    Wanted {
        vdd: opts.vdd,
        needs: opts.needs.as_slice().len(),
        hclk: opts.hclk,
        pclk1: opts.pclk1,
        pclk2: opts.pclk2,
        free: opts.free,
    }
}

fn options(alloc: Global, line: &str) -> Result<Option<Wanted>, Fail> {
    let Some(command) = read(alloc, line)? else {
        return Ok(None);
    };
    Ok(match &command {
        Command::Resolve { opts, .. }
        | Command::Ioc { opts, .. }
        | Command::Board { opts, .. }
        | Command::Explain { opts, .. } => Some(of_opts(opts)),
        _ => None,
    })
}

#[test]
fn options_stand_in_any_order(rt: HostRuntime) -> Result<(), Fail> {
    let all =
        "resolve --vdd T --proof --free clock --workers 16 --pclk2 3 --need  --pclk1 2 --hclk 4294967295";
    let Some(asked) = options(rt.alloc(), all)? else {
        panic!(rt; "{all}");
    };
    assert_eq!(rt; asked.vdd, 3300);
    assert_eq!(rt; asked.needs, 1);
    assert_eq!(rt; asked.hclk, Some(4294967295));
    assert_eq!(rt; asked.pclk1, Some(2));
    assert_eq!(rt; asked.pclk2, Some(3));
    assert_eq!(rt; asked.free, Free::Clock);
    Ok(())
}

#[test]
fn what_is_not_given_has_its_default(rt: HostRuntime) -> Result<(), Fail> {
    for line in ["resolve T B", "ioc T B", "board T B", "explain T B"] {
        let Some(asked) = options(rt.alloc(), line)? else {
            panic!(rt; "{line}");
        };
        assert_eq!(rt; asked.vdd, 3300, "{line}");
        assert_eq!(rt; asked.needs, 0, "{line}");
        assert_eq!(rt; asked.hclk, None, "{line}");
        assert_eq!(rt; asked.free, Free::All, "{line}");
    }
    Ok(())
}

/// Whether a line names these two inputs first.
fn names_first(alloc: Global, line: &str, table: &str, project: &str) -> Result<bool, Fail> {
    let Some(command) = read(alloc, line)? else {
        return Ok(false);
    };
    Ok(match command.inputs(alloc)?.as_slice() {
        [first, second, ..] => first.as_str() == table && second.as_str() == project,
        _ => false,
    })
}

#[test]
fn inputs_are_named_in_their_order(rt: HostRuntime) -> Result<(), Fail> {
    for line in [
        "pins T B",
        "check T B Q",
        "ioc T B",
        "board T B",
        "explain T B",
    ] {
        assert!(rt; names_first(rt.alloc(), line, "T", "B")?, "{line}");
    }
    assert!(rt; !names_first(rt.alloc(), "explain B T", "T", "B")?);
    Ok(())
}
