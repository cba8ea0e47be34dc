//! Which keys are named.
ghost use Rattle.std.specs.Prelude.{◌≡◌, MatchOption};
ghost use Rattle.ioc_text.specs.Lines.{is_named, is_single_key, is_clock_key, is_pin_key, pin_number};
ghost use Rattle.res_model.specs.Numbers.{number_of};

use res_base::parse_dec;

#[tactic(auto, using(res_model::proofs::NumberLaws::parsed))]
fn number_of(text: &[u8]) -> Option<u64>
    ensures { result ≡ number_of text.now }
{
    parse_dec(text)
}

/// k of a key `Mcu.Pin<k>`, a decimal number with no leading zero, if the key is one.
#[tactic(auto, unfolding(crate::specs::Lines::pin_number))]
pub fn pin_number(key: &[u8]) -> Option<u64>
    ensures { result ≡ pin_number key.now }
{
    if key.starts_with(b"Mcu.Pin") {
        number_of(&key[7..])
    } else {
        None
    }
}

#[tactic(auto, unfolding(crate::specs::Lines::is_single_key))]
fn is_single_key(key: &[u8]) -> bool
    ensures { result ≡ is_single_key key.now }
{
    key == b"Mcu.Name".as_slice()
        || key == b"Mcu.Package".as_slice()
        || key == b"Mcu.PinsNb".as_slice()
        || key == b"KeepUserPlacement".as_slice()
}

#[tactic(auto, unfolding(crate::specs::Lines::is_clock_key))]
fn is_clock_key(key: &[u8]) -> bool
    ensures { result ≡ is_clock_key key.now }
{
    key == b"RCC.HSE_VALUE".as_slice()
        || key == b"RCC.PLLM".as_slice()
        || key == b"RCC.PLLN".as_slice()
        || key == b"RCC.PLLQ".as_slice()
        || key == b"RCC.PLLP".as_slice()
        || key == b"RCC.SYSCLKSource".as_slice()
        || key == b"RCC.PLLSourceVirtual".as_slice()
        || key == b"RCC.AHBCLKDivider".as_slice()
        || key == b"RCC.APB1CLKDivider".as_slice()
        || key == b"RCC.APB2CLKDivider".as_slice()
}

#[tactic(auto, unfolding(crate::specs::Lines::is_pin_key))]
fn is_pin_key(key: &[u8]) -> bool
    ensures { result ≡ is_pin_key key.now }
{
    key.ends_with(b".Signal")
        || key.ends_with(b".Locked")
        || key.ends_with(b".GPIO_PuPd")
        || key.ends_with(b".GPIO_Speed")
}

/// Whether a key is one of those that are read.
#[tactic(auto, unfolding(crate::specs::Lines::is_named))]
pub(crate) fn is_named(key: &[u8]) -> bool
    ensures { result ≡ is_named key.now }
{
    is_single_key(key) || is_clock_key(key) || is_pin_key(key) || pin_number(key).is_some()
}
