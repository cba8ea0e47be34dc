//! A field of a word.
ghost use Rattle.std.specs.Prelude.{◌≡◌, ℕ, ◌+◌, ◌^◌, ◌<◌, ◌≤◌};
ghost use Rattle.reg_map.specs.Fields.{field_of, with_field, IsField};

/// A field of a word of 32 bits: its lowest bit, and how many bits it has.
#[derive(Clone, Copy, Debug, PartialEq, Eq)]
pub struct Field {
    pub low: u8,
    pub width: u8,
}

/// The value of a field.
#[tactic(auto, using(crate::proofs::FieldLemmas::field_fits, std::proofs::lemmas::Nat::one_shl))]
pub fn field_get(word: u32, f: Field) -> u32
    requires { IsField f }
    ensures { result ≡ field_of f.low f.width word }
{
    let above = u64::from(word) >> u32::from(f.low);
    (above % (1 << u32::from(f.width))) as u32
}

/// The word with this value in a field, and each other bit as it is.
#[tactic(auto, using(crate::proofs::FieldLemmas::with_fits, std::proofs::lemmas::Nat::shl_whole, std::proofs::lemmas::Nat::one_shl))]
pub fn field_set(word: u32, f: Field, value: u32) -> u32
    requires field { IsField f }
    requires fits { value < 2 ^ f.width }
    ensures { result ≡ with_field f.low f.width value word }
{
    let low = u32::from(f.low);
    let end = low + u32::from(f.width);
    let word = u64::from(word);
    let above = word / (1 << end) * (1 << end);
    let below = word % (1 << low);
    (above + u64::from(value) * (1 << low) + below) as u32
}
