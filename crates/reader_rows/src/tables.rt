//! Which fault comes first, and what a table says.
use mcu_tables::{StepLimits, TableFault, TableParts, TableSignal, Tables, read_tables};
use refusal::Refusal;
use res_base::OutOfMemory;
use res_model::scale_limit;
use std::alloc::{AllocError, Global};
use std::test::Fail;

fn table() -> &'static str {
    r#"{"version":1,"names":["STM32F407V(E-G)Tx"],"package":"LQFP100","pins":["PA0-WKUP","PA9","PA10","PB6","PH0-OSC_IN"],"signals":[{"name":"USART1_TX","use":"alt","ip":"USART1","at":[["PA9",7],["PB6",7]]},{"name":"I2C1_SCL","use":"alt","drain":true,"at":[["PB6",4]]},{"name":"RCC_OSC_IN","use":"osc","at":["PH0-OSC_IN"]},{"name":"GPIO_Input","use":"input"},{"name":"GPIO_Analog","use":"analog"}],"hse_in":"RCC_OSC_IN","hse_out":"RCC_OSC_OUT","ips":[{"name":"USB_OTG_FS","clock48":"exact","floor":14200001},{"name":"RNG","clock48":"most","marks":["RNG_VS_RNG"]}],"clock":{"m":[2,63],"n":[50,432],"p":[2,4,6,8],"q":[2,15],"hpre":[1,2,512],"ppre1":[1,16],"ppre2":[1],"vos":[1,2]},"limits":{"crystal":[4000000,26000000],"bypass":[1000000,50000000],"vco_in":[1000000,2000000],"vco":[100000000,432000000],"sysclk":168000000,"pclk1":42000000,"pclk2":84000000},"scales":[{"vos":1,"max":168000000},{"vos":2,"max":144000000}],"flash":[{"from":1800,"to":2099,"prefetch":false,"rows":[20000000,40000000]},{"from":2100,"to":3600,"prefetch":true,"rows":[30000000]}],"defaults":{"src":"HSI","psrc":"HSE","hpre":1,"p":2,"m":16,"n":192,"q":4,"ppre1":1,"ppre2":1,"vos":1,"hse":8000000}}"#
}

/// A part of the table, what stands there in its place, and what is then answered; one case a line.
fn cases() -> &'static str {
    r#"LQFP100 # LQFP100 # read
"version":1 # "version":3 # field /version
"version":1 # "version":0 # field /version
"version":1 # "version":2 # missing /limits/over
"pclk2":84000000 # "pclk2":84000000,"over":5 # read
"vos":[1,2] # "vos":[1,4] # field /clock/vos/1
{"vos":1,"max":168000000} # {"vos":1,"max":180000000} # field /scales/0/max
["PA9",7],["PB6",7] # ["PA9",16] # field /signals/0/at/0
["PA9",7],["PB6",7] # ["PA9",7],["PA9",16] # field /signals/0/at/1
["PA9",7],["PB6",7] # ["PA9",7],["PA9",8] # repeated /signals/0/at/1
"PA10","PB6" # "PA9","PB6" # repeated /pins/2
"PA10","PB6" # "PA9-X","PB6" # repeated /pins/2
"PA10","PB6" # "PA09","PB6" # field /pins/2
"PA10","PB6" # "PA16","PB6" # field /pins/2
"name":"I2C1_SCL" # "name":"USART1_TX" # repeated /signals/1/name
"use":"input" # "use":"input","at":[] # field /signals/3/at
"use":"analog" # "use":"analog","at":[] # read
"drain":true # "drain":null # field /signals/1/drain
"signals":[{ # "signals":[5,{ # field /signals/0
"m":[2,63], #  # missing /clock/m
"m":[2,63], # "m":[1,63], # field /clock/m
"clock":{ # "clocks":{ # missing /clock/m
"hpre":[1,2,512] # "hpre":[3] # field /clock/hpre/0
"hpre":[1,2,512] # "hpre":[2,2] # field /clock/hpre/1
"vos":[1,2] # "vos":[2] # field /clock/vos
"limits":{ # "limit":{ # missing /limits/crystal
"pclk1":42000000 # "pclk1":10000000 # reset 8
[20000000,40000000] # [1] # reset 13
{"vos":2,"max":144000000} # {"vos":1,"max":144000000} # field /scales/1/vos
"from":2100 # "from":2099 # field /flash/1/from
"defaults":{ # "defaults":5,"other":{ # field /defaults
"defaults":{ # "default":{ # missing /defaults/src
"hse":8000000 # "hse":4294967296 # field /defaults/hse
{"version":1 #  # not json"#
}

/// A table of version 2, of a part with over-drive.
fn over_table() -> &'static str {
    r#"{"version":2,"names":["STM32F429V(E-G)Tx"],"package":"LQFP100","pins":["PA9","PH0-OSC_IN"],"signals":[{"name":"USART1_TX","use":"alt","ip":"USART1","at":[["PA9",7]]},{"name":"RCC_OSC_IN","use":"osc","at":["PH0-OSC_IN"]}],"hse_in":"RCC_OSC_IN","hse_out":"RCC_OSC_OUT","ips":[],"clock":{"m":[2,63],"n":[50,432],"p":[2,4,6,8],"q":[2,15],"hpre":[1,2,512],"ppre1":[1,16],"ppre2":[1],"vos":[1,2,4,5]},"limits":{"crystal":[4000000,26000000],"bypass":[1000000,50000000],"vco_in":[1000000,2000000],"vco":[100000000,432000000],"sysclk":168000000,"pclk1":42000000,"pclk2":84000000,"over":{"sysclk":180000000,"pclk1":45000000,"pclk2":90000000}},"scales":[{"vos":1,"max":168000000},{"vos":2,"max":144000000},{"vos":4,"max":180000000},{"vos":5,"max":168000000}],"flash":[{"from":2700,"to":3600,"prefetch":true,"rows":[30000000,180000000]}],"defaults":{"src":"HSI","psrc":"HSE","hpre":1,"p":2,"m":16,"n":192,"q":4,"ppre1":1,"ppre2":1,"vos":1,"hse":8000000}}"#
}

fn over_cases() -> &'static str {
    r#"LQFP100 # LQFP100 # read
"vos":1,"hse" # "vos":4,"hse" # read
"vos":1,"hse" # "vos":3,"hse" # field /defaults/vos
"version":2 # "version":1 # field /clock/vos/2
"vos":[1,2,4,5] # "vos":[1,5] # field /clock/vos
"vos":[1,2,4,5] # "vos":[1,3,4,5] # field /clock/vos
"vos":[1,2,4,5] # "vos":[2,4,5] # field /clock/vos
"vos":[1,2,4,5] # "vos":[1,2,4,6] # field /clock/vos/3
"vos":[1,2,4,5] # "vos":[1,2,4] # field /scales
"over":{ # "above":{ # missing /limits/over
"over":{ # "over":5,"above":{ # field /limits/over
"over":{"sysclk":180000000, # "over":{ # missing /limits/over/sysclk
"sysclk":180000000 # "sysclk":180000001 # field /limits/over/sysclk
"sysclk":180000000 # "sysclk":0 # field /limits/over/sysclk
"pclk1":45000000 # "pclk1":45000001 # field /limits/over/pclk1
"pclk2":90000000 # "pclk2":90000001 # field /limits/over/pclk2
{"vos":1,"max":168000000} # {"vos":1,"max":168000001} # field /scales/0/max
{"vos":4,"max":180000000} # {"vos":4,"max":180000001} # field /scales/2/max
{"vos":5,"max":168000000} # {"vos":5,"max":180000000} # read
{"vos":5,"max":168000000} # {"vos":3,"max":168000000} # field /scales/3/vos
"sysclk":180000000 # "sysclk":15999999 # reset 6
{"vos":5,"max":168000000} # {"vos":5,"max":15999999} # reset 7
"pclk1":45000000 # "pclk1":15999999 # reset 8
"pclk2":90000000 # "pclk2":15999999 # reset 9"#
}

/// A table with one part replaced.
fn changed(alloc: Global, table: &str, old: &str, new: &str) -> Result<String, AllocError> {
    let mut text = String::new(alloc);
    if let Some((before, after)) = table.split_once(old) {
        text.push_str(before)?;
        text.push_str(new)?;
        text.push_str(after)?;
    }
    Ok(text)
}

/// What is answered, in words.
fn answer(alloc: Global, text: &str) -> Result<String, AllocError> {
    match read_tables(alloc, text.as_bytes()) {
        Ok(_) => String::from_str(alloc, "read"),
        Err(Refusal::Fault(TableFault::NotJson)) => String::from_str(alloc, "not json"),
        Err(Refusal::Fault(TableFault::Missing { path })) => format!(in alloc;
            "missing {}",
            path.as_str()
        ),
        Err(Refusal::Fault(TableFault::BadField { path })) => format!(in alloc;
            "field {}",
            path.as_str()
        ),
        Err(Refusal::Fault(TableFault::Repeated { path })) => format!(in alloc;
            "repeated {}",
            path.as_str()
        ),
        Err(Refusal::Fault(TableFault::ResetIllegal { limit })) => format!(in alloc;
            "reset {}",
            limit.number()
        ),
        Err(Refusal::OutOfMemory) => Err(AllocError),
    }
}

/// Whether a line of the cases of a table holds.
fn holds(alloc: Global, table: &str, case: &str) -> Result<bool, AllocError> {
    let Some((old, rest)) = case.split_once(" # ") else {
        return Ok(false);
    };
    let Some((new, wanted)) = rest.split_once(" # ") else {
        return Ok(false);
    };
    let text = changed(alloc, table, old, new)?;
    let told = answer(alloc, text.as_str())?;
    Ok(told.as_str() == wanted)
}

#[test]
fn faults_in_order(rt: HostRuntime) -> Result<(), Fail> {
    for case in cases().split('\n') {
        let held = holds(rt.alloc(), table(), case)?;
        assert!(&rt; held, "{case}");
    }
    Ok(())
}

#[test]
fn faults_in_order_of_a_table_with_over_drive(rt: HostRuntime) -> Result<(), Fail> {
    for case in over_cases().split('\n') {
        let held = holds(rt.alloc(), over_table(), case)?;
        assert!(&rt; held, "{case}");
    }
    Ok(())
}

/// The limits at a power step, where the table has it.
fn limits_at(table: &Tables, step: u8) -> Option<StepLimits> {
    match scale_limit(table.parts(), u16::from(step)) {
        Some(_) => Some(table.limits_at(step)),
        None => None,
    }
}

/// Scale 1 without over-drive and with it; there is no scale 3.
fn limits_go_with_the_step(table: &Tables) -> bool {
    let plain = StepLimits {
        sysclk: 168000000,
        hclk: 168000000,
        pclk1: 42000000,
        pclk2: 84000000,
    };
    let over = StepLimits {
        sysclk: 180000000,
        hclk: 180000000,
        pclk1: 45000000,
        pclk2: 90000000,
    };
    limits_at(table, 1) == Some(plain)
        && limits_at(table, 4) == Some(over)
        && limits_at(table, 3).is_none()
}

fn pins_are_found(table: &Tables) -> bool {
    table.pin_of(b"PB6") == Some(3) && table.pin_of(b"PB7").is_none()
}

fn numbers_are_read(parts: &TableParts) -> bool {
    parts.hse_hz == 8000000 && parts.clock.n.1 == 432 && parts.defaults[5] == 192
}

fn drain_is_read(signals: &[TableSignal]) -> bool {
    match signals {
        [_, second, ..] => second.drain,
        _ => false,
    }
}

fn is_right(table: &Tables) -> bool {
    let drains = drain_is_read(table.parts().signals.as_slice());
    drains && pins_are_found(table) && numbers_are_read(table.parts())
}

fn is_copied(alloc: Global, table: &Tables) -> Result<bool, OutOfMemory> {
    let copied = table.copy(alloc)?;
    Ok(is_right(&copied))
}

#[test]
fn a_table_whole(rt: HostRuntime) -> Result<(), Fail> {
    let read = read_tables(rt.alloc(), table().as_bytes())?;
    let held = is_copied(rt.alloc(), &read)?;
    assert!(&rt; held);
    Ok(())
}

#[test]
fn limits_at_each_power_step(rt: HostRuntime) -> Result<(), Fail> {
    let read = read_tables(rt.alloc(), over_table().as_bytes())?;
    assert!(&rt; read.version() == 2);
    assert!(&rt; limits_go_with_the_step(&read));
    Ok(())
}
