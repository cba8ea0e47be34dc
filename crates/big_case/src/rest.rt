//! The part of the table behind the signals, and the clock keys of the project.
ghost use Rattle.std.specs.Prelude.{◌≡◌};
ghost use Rattle.big_case.specs.Rest.{clock_keys, domains, flash, limits, oscillator, scales, start};

/// The signals of the oscillator's pins, and the one IP.
#[tactic(auto, unfolding(crate::specs::Rest::oscillator))]
pub(crate) fn oscillator() -> &'static [u8]
    ensures { result.now ≡ oscillator }
{
    br#""hse_in":"OSC_IN","hse_out":"OSC_OUT",
"ips":[{"name":"CASE_USB","clock48":"exact","floor":14200001}],
"#
}

/// The values that the clock variables can have (RM0090, RCC).
#[tactic(auto, unfolding(crate::specs::Rest::domains))]
pub(crate) fn domains() -> &'static [u8]
    ensures { result.now ≡ domains }
{
    br#""clock":{"m":[2,63],"n":[50,432],"p":[2,4,6,8],"q":[2,15],"hpre":[1,2,4,8,16,64,128,256,512],"ppre1":[1,2,4,8,16],"ppre2":[1,2,4,8,16],"vos":[1,2]},
"#
}

/// The limits of the clock nodes, in hertz.
#[tactic(auto, unfolding(crate::specs::Rest::limits))]
pub(crate) fn limits() -> &'static [u8]
    ensures { result.now ≡ limits }
{
    br#""limits":{"crystal":[4000000,26000000],"bypass":[1000000,50000000],"vco_in":[1000000,2000000],"vco":[100000000,432000000],"sysclk":168000000,"pclk1":42000000,"pclk2":84000000},
"#
}

/// The fastest HCLK of each voltage scale, in hertz.
#[tactic(auto, unfolding(crate::specs::Rest::scales))]
pub(crate) fn scales() -> &'static [u8]
    ensures { result.now ≡ scales }
{
    br#""scales":[{"vos":1,"max":168000000},{"vos":2,"max":144000000}],
"#
}

/// The wait states of the flash by supply, in millivolts, and HCLK, in hertz.
#[tactic(auto, unfolding(crate::specs::Rest::flash))]
pub(crate) fn flash() -> &'static [u8]
    ensures { result.now ≡ flash }
{
    br#""flash":[
{"from":1800,"to":2099,"prefetch":false,"rows":[20000000,40000000,60000000,80000000,100000000,120000000,140000000,160000000]},
{"from":2100,"to":2399,"prefetch":true,"rows":[22000000,44000000,66000000,88000000,110000000,132000000,154000000,168000000]},
{"from":2400,"to":2699,"prefetch":true,"rows":[24000000,48000000,72000000,96000000,120000000,144000000,168000000]},
{"from":2700,"to":3600,"prefetch":true,"rows":[30000000,60000000,90000000,120000000,150000000,168000000]}],
"#
}

/// Where the clock tree stands without a project.
#[tactic(auto, unfolding(crate::specs::Rest::start))]
pub(crate) fn start() -> &'static [u8]
    ensures { result.now ≡ start }
{
    br#""defaults":{"src":"HSI","psrc":"HSI","hpre":1,"p":2,"m":16,"n":192,"q":4,"ppre1":1,"ppre2":1,"vos":1,"hse":8000000}}
"#
}

/// The clock tree of the project.
#[tactic(auto, unfolding(crate::specs::Rest::clock_keys))]
pub(crate) fn clock_keys() -> &'static [u8]
    ensures { result.now ≡ clock_keys }
{
    br"RCC.APB1CLKDivider=RCC_HCLK_DIV4
RCC.APB2CLKDivider=RCC_HCLK_DIV2
RCC.HSE_VALUE=8000000
RCC.PLLM=8
RCC.PLLN=336
RCC.PLLQ=4
RCC.PLLSourceVirtual=RCC_PLLSOURCE_HSE
RCC.SYSCLKSource=RCC_SYSCLKSOURCE_PLLCLK
"
}
