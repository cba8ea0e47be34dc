//! Words in hexadecimal.
ghost use Rattle.std.specs.Prelude.{◌≡◌, ◌<◌};
ghost use Rattle.reg_trace.specs.Lines.{digit, word_text};

/// A word behind a space and `0x`, in eight upper-case digits. It is one array, so that a line takes one append for it.
#[tactic(auto, unfolding(crate::specs::Lines::word_text, crate::specs::Lines::digits_8, crate::specs::Lines::digits_4, crate::specs::Lines::digits_2))]
pub(crate) fn word_text(n: u32) -> [u8; 11]
    ensures { result ≡ word_text n }
{
    let high = n / 0x1_0000;
    let low = n % 0x1_0000;
    [
        b' ',
        b'0',
        b'x',
        digit(high / 0x100 / 0x10),
        digit(high / 0x100 % 0x10),
        digit(high % 0x100 / 0x10),
        digit(high % 0x100 % 0x10),
        digit(low / 0x100 / 0x10),
        digit(low / 0x100 % 0x10),
        digit(low % 0x100 / 0x10),
        digit(low % 0x100 % 0x10),
    ]
}

#[tactic(auto, unfolding(crate::specs::Lines::digit))]
fn digit(n: u32) -> u8
    requires { n < 16 }
    ensures { result ≡ digit n }
{
    if n < 10 {
        b'0' + n as u8
    } else {
        b'A' - 10 + n as u8
    }
}
