//! Addresses and fields.
use reg_map::{Field, GpioReg, Reg, addr, field_get, field_set, reg_at};
use std::test::Fail;

/// RM0090: the PLL's M is bits 5:0 and its Q bits 27:24 of RCC_PLLCFGR; GPIOD begins at 0x40020C00.
#[test]
fn registers_and_fields(rt: HostRuntime) -> Result<(), Fail> {
    let moder = Reg::Gpio {
        port: 3,
        kind: GpioReg::Moder,
    };
    assert_eq!(rt; addr(Reg::Acr), 0x4002_3C00, "FLASH_ACR");
    assert_eq!(rt; addr(moder), 0x4002_0C00, "GPIOD_MODER");
    assert_eq!(rt; reg_at(0x4002_0C00), Some(moder), "back");
    assert_eq!(rt; reg_at(0x4000_7004), Some(Reg::PwrCsr), "PWR_CSR");
    assert_eq!(rt; reg_at(0x4002_0C10), None, "GPIOD_IDR is not among them");
    let q = Field { low: 24, width: 4 };
    assert_eq!(rt; field_get(0x2740_5408, q), 7, "Q of a word");
    assert_eq!(rt; field_set(0x2740_5408, q, 4), 0x2440_5408, "another Q");
    Ok(())
}
