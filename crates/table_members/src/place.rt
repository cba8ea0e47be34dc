//! Where a fault is in a table, and how its path is spelled.
ghost use Rattle.std.specs.Prelude.{◌≡◌, ◌++◌, [], ◌∷◌, decimal, IfOk, OnOk, string_bytes};
ghost use Rattle.table_members.specs.Forms.{below};
ghost use Rattle.table_members.specs.Places.{spelling, path_of, spelled, fault_of};

use crate::fault::TableFault;
use res_base::{OutOfMemory, Text};
use res_model::Limit;
use std::alloc::Global;

/// The name of a member of the table.
#[derive(Clone, Copy)]
pub enum Key {
    Version,
    Names,
    Package,
    Pins,
    Signals,
    Name,
    Use,
    Ip,
    Drain,
    At,
    HseIn,
    HseOut,
    Ips,
    Clock48,
    Floor,
    Marks,
    Clock,
    M,
    N,
    Q,
    P,
    Hpre,
    Ppre1,
    Ppre2,
    Vos,
    Limits,
    Crystal,
    Bypass,
    VcoIn,
    Vco,
    Sysclk,
    Pclk1,
    Pclk2,
    Over,
    Scales,
    Max,
    Flash,
    From,
    To,
    Prefetch,
    Rows,
    Defaults,
    Src,
    Psrc,
    Hse,
    Dma,
}

impl Key {
    /// Its name in the text of a table.
    pub fn spelling(self) -> &'static str
        ensures { result.now ≡ spelling self }
    {
        match self {
            Key::Version => "version",
            Key::Names => "names",
            Key::Package => "package",
            Key::Pins => "pins",
            Key::Signals => "signals",
            Key::Name => "name",
            Key::Use => "use",
            Key::Ip => "ip",
            Key::Drain => "drain",
            Key::At => "at",
            Key::HseIn => "hse_in",
            Key::HseOut => "hse_out",
            Key::Ips => "ips",
            Key::Clock48 => "clock48",
            Key::Floor => "floor",
            Key::Marks => "marks",
            Key::Clock => "clock",
            Key::M => "m",
            Key::N => "n",
            Key::Q => "q",
            Key::P => "p",
            Key::Hpre => "hpre",
            Key::Ppre1 => "ppre1",
            Key::Ppre2 => "ppre2",
            Key::Vos => "vos",
            Key::Limits => "limits",
            Key::Crystal => "crystal",
            Key::Bypass => "bypass",
            Key::VcoIn => "vco_in",
            Key::Vco => "vco",
            Key::Sysclk => "sysclk",
            Key::Pclk1 => "pclk1",
            Key::Pclk2 => "pclk2",
            Key::Over => "over",
            Key::Scales => "scales",
            Key::Max => "max",
            Key::Flash => "flash",
            Key::From => "from",
            Key::To => "to",
            Key::Prefetch => "prefetch",
            Key::Rows => "rows",
            Key::Defaults => "defaults",
            Key::Src => "src",
            Key::Psrc => "psrc",
            Key::Hse => "hse",
            Key::Dma => "dma",
        }
    }
}

/// Where a member stands in the table.
#[derive(Clone, Copy)]
pub enum Spot {
    /// It is a member of the table.
    Top(Key),
    /// It is a member of a member.
    Nested(Key, Key),
    /// It is a member of a member of a member.
    Deep(Key, Key, Key),
    /// It is a member of an entry of a list.
    Inner(Key, usize, Key),
}

/// Where a fault is: a member, or an entry of a list.
#[derive(Clone, Copy)]
pub enum Place {
    Member(Spot),
    Entry(Spot, usize),
}

/// A fault of the table, with its place not yet spelled.
#[derive(Clone, Copy)]
pub enum Flaw {
    NotJson,
    Missing(Place),
    BadField(Place),
    Repeated(Place),
    ResetIllegal(Limit),
}

fn put_key(path: &mut String, key: Key) -> Result<(), OutOfMemory>
    ensures { OnOk result (string_bytes path.new ≡ below (string_bytes path.old) (spelling key)) }
{
    path.push_str("/")?;
    path.push_str(key.spelling())?;
    Ok(())
}

fn put_index(alloc: Global, path: &mut String, index: usize) -> Result<(), OutOfMemory>
    ensures { OnOk result (string_bytes path.new ≡ below (string_bytes path.old) (decimal index)) }
{
    let digits = index.to_string(alloc)?;
    path.push_str("/")?;
    path.push_str(digits.as_str())?;
    Ok(())
}

fn put_spot(alloc: Global, path: &mut String, at: Spot) -> Result<(), OutOfMemory>
    requires { string_bytes path.old ≡ [] }
    ensures { OnOk result (string_bytes path.new ≡ path_of at) }
{
    match at {
        Spot::Top(key) => put_key(path, key),
        Spot::Nested(group, key) => {
            put_key(path, group)?;
            put_key(path, key)
        }
        Spot::Deep(outer, group, key) => {
            put_key(path, outer)?;
            put_key(path, group)?;
            put_key(path, key)
        }
        Spot::Inner(list, index, key) => {
            put_key(path, list)?;
            put_index(alloc, path, index)?;
            put_key(path, key)
        }
    }
}

/// The path of a place.
fn path_text(alloc: Global, at: Place) -> Result<Text, OutOfMemory>
    ensures { IfOk result (λ t. t ≡ spelled at) }
{
    let mut path = String::new(alloc);
    match at {
        Place::Member(spot) => put_spot(alloc, &mut path, spot)?,
        Place::Entry(spot, index) => {
            put_spot(alloc, &mut path, spot)?;
            put_index(alloc, &mut path, index)?;
        }
    }
    Text::copy(alloc, path.as_str())
}

/// The fault with its path.
pub fn spelled_fault(alloc: Global, flaw: Flaw) -> Result<TableFault, OutOfMemory>
    ensures { IfOk result (λ f. f ≡ fault_of flaw) }
{
    match flaw {
        Flaw::NotJson => Ok(TableFault::NotJson),
        Flaw::Missing(at) => Ok(TableFault::Missing {
            path: path_text(alloc, at)?,
        }),
        Flaw::BadField(at) => Ok(TableFault::BadField {
            path: path_text(alloc, at)?,
        }),
        Flaw::Repeated(at) => Ok(TableFault::Repeated {
            path: path_text(alloc, at)?,
        }),
        Flaw::ResetIllegal(limit) => Ok(TableFault::ResetIllegal { limit }),
    }
}
