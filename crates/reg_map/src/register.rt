//! Registers and their addresses.
ghost use Rattle.std.specs.Prelude.{◌≡◌, ◌≢◌, ℕ, ◌+◌, ◌*◌, ◌<◌, IfSome, IfNone};
ghost use Rattle.reg_map.specs.Registers.{address, offset, gpio_base, port_size, IsRegister, StandsAlone};
ghost use Rattle.reg_map.specs.declared.register.Reg.{Reg};
ghost use Rattle.reg_map.specs.declared.register.GpioReg.{GpioReg};

/// A register of a GPIO port.
#[derive(Clone, Copy, Debug, PartialEq, Eq)]
pub enum GpioReg {
    Moder,
    Otyper,
    Ospeedr,
    Pupdr,
    Afrl,
    Afrh,
}

/// A register of RCC, FLASH or PWR, or of a GPIO port, 0 for A to 8 for I.
#[derive(Clone, Copy, Debug, PartialEq, Eq)]
pub enum Reg {
    Cr,
    Pllcfgr,
    Cfgr,
    Ahb1enr,
    Apb1enr,
    Acr,
    PwrCr,
    PwrCsr,
    Gpio { port: u8, kind: GpioReg },
}

const GPIO: u32 = 0x4002_0000;

const PORT: u32 = 0x400;

/// The address of a register.
pub fn addr(r: Reg) -> u32
    requires { IsRegister r }
    ensures { result ≡ address r }
{
    match r {
        Reg::Cr => 0x4002_3800,
        Reg::Pllcfgr => 0x4002_3804,
        Reg::Cfgr => 0x4002_3808,
        Reg::Ahb1enr => 0x4002_3830,
        Reg::Apb1enr => 0x4002_3840,
        Reg::Acr => 0x4002_3C00,
        Reg::PwrCr => 0x4000_7000,
        Reg::PwrCsr => 0x4000_7004,
        Reg::Gpio { port, kind } => GPIO + PORT * u32::from(port) + offset(kind),
    }
}

/// The register at an address; None where no register has it.
pub fn reg_at(at: u32) -> Option<Reg>
    ensures found { IfSome result (λ r. IsRegister r × (address r ≡ at)) }
    ensures none { IfNone result ((r : Reg) → IsRegister r → address r ≢ at) }
{
    match lone_at(at) {
        Some(reg) => Some(reg),
        None => gpio_at(at),
    }
}

fn lone_at(at: u32) -> Option<Reg>
    ensures found { IfSome result (λ r. IsRegister r × (address r ≡ at)) }
    ensures none { IfNone result ((r : Reg) → StandsAlone r → address r ≢ at) }
{
    match at {
        0x4002_3800 => Some(Reg::Cr),
        0x4002_3804 => Some(Reg::Pllcfgr),
        0x4002_3808 => Some(Reg::Cfgr),
        0x4002_3830 => Some(Reg::Ahb1enr),
        0x4002_3840 => Some(Reg::Apb1enr),
        0x4002_3C00 => Some(Reg::Acr),
        0x4000_7000 => Some(Reg::PwrCr),
        0x4000_7004 => Some(Reg::PwrCsr),
        _ => None,
    }
}

fn gpio_at(at: u32) -> Option<Reg>
    ensures found { IfSome result (λ r. IsRegister r × (address r ≡ at)) }
    ensures none { IfNone result ((port : ℕ) (kind : GpioReg) → port < 9 → gpio_base + port_size * port + offset kind ≢ at) }
{
    if at < GPIO || GPIO + 9 * PORT <= at {
        return None;
    }
    let port = ((at - GPIO) / PORT) as u8;
    match kind_at((at - GPIO) % PORT) {
        Some(kind) => Some(Reg::Gpio { port, kind }),
        None => None,
    }
}

fn offset(kind: GpioReg) -> u32
    ensures is { result ≡ offset kind }
    ensures inside { result < 0x400 }
{
    match kind {
        GpioReg::Moder => 0x00,
        GpioReg::Otyper => 0x04,
        GpioReg::Ospeedr => 0x08,
        GpioReg::Pupdr => 0x0C,
        GpioReg::Afrl => 0x20,
        GpioReg::Afrh => 0x24,
    }
}

fn kind_at(place: u32) -> Option<GpioReg>
    ensures found { IfSome result (λ kind. offset kind ≡ place) }
    ensures none { IfNone result ((kind : GpioReg) → offset kind ≢ place) }
{
    match place {
        0x00 => Some(GpioReg::Moder),
        0x04 => Some(GpioReg::Otyper),
        0x08 => Some(GpioReg::Ospeedr),
        0x0C => Some(GpioReg::Pupdr),
        0x20 => Some(GpioReg::Afrl),
        0x24 => Some(GpioReg::Afrh),
        _ => None,
    }
}
