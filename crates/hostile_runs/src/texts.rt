//! The texts of the runs. Without a clause a proof knows nothing of their bytes.
use res_base::{Items, OutOfMemory, Text};
use res_io::MemFile;
use std::alloc::{AllocError, Global};

/// The sample table. Without a clause a proof knows nothing of its bytes.
pub(crate) fn table() -> &'static str {
    r#"{"version":1,"names":["STM32F407V(E-G)Tx"],"package":"LQFP100",
"pins":["PA0-WKUP","PA2","PA3","PA5","PA6","PA7","PA9","PA10","PA11","PA12","PA13","PA14","PB0","PB3","PB4","PB5","PB6","PB7","PB8","PB9","PC6","PC7","PD0","PD1","PD5","PD6","PD12","PD13","PD14","PD15","PH0-OSC_IN","PH1-OSC_OUT","PE0","PE1","PE2","PE3","PE4","PE5","PE6","PE7"],
"signals":[
{"name":"USART1_TX","use":"alt","ip":"USART1","at":[["PA9",7],["PB6",7]]},
{"name":"USART1_RX","use":"alt","ip":"USART1","at":[["PA10",7],["PB7",7]]},
{"name":"USART2_TX","use":"alt","ip":"USART2","at":[["PA2",7],["PD5",7]]},
{"name":"USART2_RX","use":"alt","ip":"USART2","at":[["PA3",7],["PD6",7]]},
{"name":"USART6_TX","use":"alt","ip":"USART6","at":[["PC6",8]]},
{"name":"USART6_RX","use":"alt","ip":"USART6","at":[["PC7",8]]},
{"name":"I2C1_SCL","use":"alt","ip":"I2C1","drain":true,"at":[["PB6",4],["PB8",4]]},
{"name":"I2C1_SDA","use":"alt","ip":"I2C1","drain":true,"at":[["PB7",4],["PB9",4]]},
{"name":"SPI1_SCK","use":"alt","ip":"SPI1","at":[["PA5",5],["PB3",5]]},
{"name":"SPI1_MISO","use":"alt","ip":"SPI1","at":[["PA6",5],["PB4",5]]},
{"name":"SPI1_MOSI","use":"alt","ip":"SPI1","at":[["PA7",5],["PB5",5]]},
{"name":"CAN1_RX","use":"alt","ip":"CAN1","at":[["PD0",9],["PB8",9]]},
{"name":"CAN1_TX","use":"alt","ip":"CAN1","at":[["PD1",9],["PB9",9]]},
{"name":"USB_OTG_FS_DM","use":"alt","ip":"USB_OTG_FS","at":[["PA11",10]]},
{"name":"USB_OTG_FS_DP","use":"alt","ip":"USB_OTG_FS","at":[["PA12",10]]},
{"name":"SYS_JTMS-SWDIO","use":"alt","at":[["PA13",0]]},
{"name":"SYS_JTCK-SWCLK","use":"alt","at":[["PA14",0]]},
{"name":"RCC_OSC_IN","use":"osc","at":["PH0-OSC_IN"]},
{"name":"RCC_OSC_OUT","use":"osc","at":["PH1-OSC_OUT"]},
{"name":"GPIO_Input","use":"input"},{"name":"GPIO_Output","use":"output"},
{"name":"GPIO_Analog","use":"analog"},{"name":"GPXTI0","use":"exti"}],
"hse_in":"RCC_OSC_IN","hse_out":"RCC_OSC_OUT",
"ips":[{"name":"USB_OTG_FS","clock48":"exact","floor":14200001},
{"name":"ETH","clock48":"none","floor":25000000},
{"name":"SDIO","clock48":"most"},
{"name":"RNG","clock48":"most","marks":["RNG_VS_RNG"]}],
"clock":{"m":[2,63],"n":[50,432],"p":[2,4,6,8],"q":[2,15],"hpre":[1,2,4,8,16,64,128,256,512],"ppre1":[1,2,4,8,16],"ppre2":[1,2,4,8,16],"vos":[1,2]},
"limits":{"crystal":[4000000,26000000],"bypass":[1000000,50000000],"vco_in":[1000000,2000000],"vco":[100000000,432000000],"sysclk":168000000,"pclk1":42000000,"pclk2":84000000},
"scales":[{"vos":1,"max":168000000},{"vos":2,"max":144000000}],
"flash":[
{"from":1800,"to":2099,"prefetch":false,"rows":[20000000,40000000,60000000,80000000,100000000,120000000,140000000,160000000]},
{"from":2100,"to":2399,"prefetch":true,"rows":[22000000,44000000,66000000,88000000,110000000,132000000,154000000,168000000]},
{"from":2400,"to":2699,"prefetch":true,"rows":[24000000,48000000,72000000,96000000,120000000,144000000,168000000]},
{"from":2700,"to":3600,"prefetch":true,"rows":[30000000,60000000,90000000,120000000,150000000,168000000]}],
"defaults":{"src":"HSI","psrc":"HSI","hpre":1,"p":2,"m":16,"n":192,"q":4,"ppre1":1,"ppre2":1,"vos":1,"hse":8000000}}"#
}

/// A project with a signal at its second pin.
pub(crate) fn project() -> &'static str {
    "Mcu.Name=STM32F407V(E-G)Tx
Mcu.Pin0=PB6
PB6.Signal=USART1_TX
"
}

/// What is printed where the project needs I2C1_SCL besides.
pub(crate) fn placement() -> &'static str {
    "rank 1 cost 0 of 4
pins 2
PB6 USART1_TX AF7 kept
PB8 I2C1_SCL AF4 need
"
}

/// Files in memory, by their names and texts.
pub(crate) fn files_of(
    alloc: Global,
    texts: &[(&'static str, &'static str)],
) -> Result<Vec<MemFile>, OutOfMemory> {
    let mut files = Vec::new(alloc);
    for (name, text) in texts {
        files.push(MemFile {
            name: Text::copy(alloc, name)?,
            bytes: Items::of(Vec::from_slice(alloc, text.as_bytes())?),
        })?;
    }
    Ok(files)
}

/// The table T and the project B in memory.
pub(crate) fn files(alloc: Global) -> Result<Vec<MemFile>, OutOfMemory> {
    files_of(alloc, &[("T", table()), ("B", project())])
}

/// The words of a line.
pub(crate) fn words_of(alloc: Global, line: &str) -> Result<Vec<String>, AllocError> {
    let mut words = Vec::new(alloc);
    for word in line.split(' ') {
        words.push(String::from_str(alloc, word)?)?;
    }
    Ok(words)
}

/// A project with a crystal, USB and four outputs, whose tree runs at 168 MHz.
pub(crate) fn discovery() -> &'static str {
    "#MicroXplorer Configuration settings - do not modify
KeepUserPlacement=false
Mcu.Name=STM32F407V(E-G)Tx
Mcu.Package=LQFP100
Mcu.Pin0=PH0-OSC_IN
Mcu.Pin1=PH1-OSC_OUT
Mcu.Pin10=VP_SYS_VS_Systick
Mcu.Pin2=PD12
Mcu.Pin3=PD13
Mcu.Pin4=PD14
Mcu.Pin5=PD15
Mcu.Pin6=PA11
Mcu.Pin7=PA12
Mcu.Pin8=PA13
Mcu.Pin9=PA14
Mcu.PinsNb=11
PA11.Signal=USB_OTG_FS_DM
PA12.Signal=USB_OTG_FS_DP
PA13.Signal=SYS_JTMS-SWDIO
PA14.Signal=SYS_JTCK-SWCLK
PD12.Locked=true
PD12.Signal=GPIO_Output
PD13.Signal=GPIO_Output
PD14.Signal=GPIO_Output
PD15.Signal=GPIO_Output
PH0-OSC_IN.Signal=RCC_OSC_IN
PH1-OSC_OUT.Signal=RCC_OSC_OUT
RCC.APB1CLKDivider=RCC_HCLK_DIV4
RCC.APB2CLKDivider=RCC_HCLK_DIV2
RCC.HSE_VALUE=8000000
RCC.PLLM=8
RCC.PLLN=336
RCC.PLLQ=7
RCC.PLLSourceVirtual=RCC_PLLSOURCE_HSE
RCC.SYSCLKSource=RCC_SYSCLKSOURCE_PLLCLK
VP_SYS_VS_Systick.Signal=SYS_VS_Systick
"
}

/// A table of three pins and two signals, without a flash.
pub(crate) fn bare_table() -> &'static str {
    r#"{"version":1,"names":["M"],"package":"K","pins":["PA9","PB6","PB8"],
"signals":[{"name":"USART1_TX","use":"alt","at":[["PA9",7],["PB6",7]]},{"name":"I2C1_SCL","use":"alt","at":[["PB6",4],["PB8",4]]}],
"hse_in":"I","hse_out":"O","ips":[],
"clock":{"m":[2,63],"n":[50,432],"p":[2],"q":[2,15],"hpre":[1],"ppre1":[1],"ppre2":[1],"vos":[1]},
"limits":{"crystal":[4000000,26000000],"bypass":[1000000,50000000],"vco_in":[1000000,2000000],"vco":[100000000,432000000],"sysclk":168000000,"pclk1":42000000,"pclk2":84000000},
"scales":[{"vos":1,"max":168000000}],"flash":[],
"defaults":{"src":"HSI","psrc":"HSI","hpre":1,"p":2,"m":16,"n":192,"q":4,"ppre1":1,"ppre2":1,"vos":1,"hse":8000000}}"#
}

/// A project of that table, with a signal at its second pin.
pub(crate) fn bare_project() -> &'static str {
    "Mcu.Name=M\nMcu.Pin0=PB6\nPB6.Signal=USART1_TX\n"
}
