//! The register CAN_BTR.
ghost use Rattle.std.specs.Prelude.{◌≡◌};
ghost use Rattle.can_timing.specs.Timings.{IsTiming, btr_of};

/// The register CAN_BTR of a timing (RM0090): BS2 in bits 22 to 20, BS1 in bits 19 to 16, and the
/// prescaler in bits 9 to 0, each less one.
pub fn btr(brp: u16, bs1: u8, bs2: u8) -> u32
    requires { IsTiming record { brp = brp; bs1 = bs1; bs2 = bs2 } }
    ensures { result ≡ btr_of record { brp = brp; bs1 = bs1; bs2 = bs2 } }
{
    (bs2 as u32 - 1) * 0x10_0000 + (bs1 as u32 - 1) * 0x1_0000 + (brp as u32 - 1)
}
