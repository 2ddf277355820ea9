ghost use Rattle.std.specs.Prelude.{◌≡◌, ◌<◌, ◌++◌, OnOk, string_bytes};
ghost use Rattle.std.specs.List.{All};

use std::alloc::AllocError;

// Appends ASCII bytes, which are characters of their own.
pub(super) fn push_ascii(text: &mut String, bytes: &[u8]) -> Result<(), AllocError>
    requires { All (λ b. b < 128) bytes.now }
    ensures { OnOk result (string_bytes text.new ≡ string_bytes text.old ++ bytes.now) }
{
    for byte in bytes {
        text.push(char::from(*byte))?;
    }
    Ok(())
}
