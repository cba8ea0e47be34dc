//! Names with their escapes.
ghost use Rattle.std.specs.Prelude.{◌≡◌, ◌++◌, OnOk};
ghost use Rattle.ioc_lines.specs.Lines.{is_special, escaped_byte, escaped};

use std::alloc::AllocError;

fn is_special(b: u8) -> bool
    ensures { result ≡ is_special b }
{
    b == b'\\' || b == b':' || b == b'=' || b == b'#' || b == b'!'
}

fn put_escaped_byte(out: &mut Vec<u8>, b: u8) -> Result<(), AllocError>
    ensures { OnOk result (out.new.items ≡ out.old.items ++ escaped_byte b) }
{
    if is_special(b) {
        out.push(b'\\')?;
    }
    out.push(b)?;
    Ok(())
}

/// Appends a name with a backslash before each byte that needs one.
#[tactic(auto, unfolding(ioc_lines::specs::Lines::escaped))]
pub(crate) fn put_escaped(out: &mut Vec<u8>, name: &[u8]) -> Result<(), AllocError>
    ensures { OnOk result (out.new.items ≡ out.old.items ++ escaped name.now) }
{
    for b in name {
        put_escaped_byte(out, *b)?;
    }
    Ok(())
}
