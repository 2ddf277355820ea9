ghost use Rattle.std.specs.Prelude.{◌≡◌, ℕ, IsTrue, List, ◌↔◌};
ghost use Rattle.pg_wire.specs.Frame.{backend_tags, is_known};
ghost use Rattle.pg_wire.specs.Header.{IsCut, IsFront};

use crate::front::Cut;

fn is_backend_tag(tag: u8) -> bool
    ensures { result ≡ is_known backend_tags tag }
{
    matches!(
        tag,
        b'R' | b'K'
            | b'S'
            | b'Z'
            | b'T'
            | b't'
            | b'D'
            | b'C'
            | b'E'
            | b'N'
            | b'A'
            | b'G'
            | b'H'
            | b'd'
            | b'I'
            | b'1'
            | b'2'
            | b'3'
            | b'n'
            | b's'
            | b'c'
    )
}

/// Looks at the front of a server's bytes. Below five bytes the answer is `Need { total: 5 }`; then an unknown tag comes
/// before a short length.
pub fn cut(bytes: &[u8]) -> Cut
    ensures header { IsCut bytes.now result }
    ensures front { IsFront bytes.now result }
{
    if bytes.len() < 5 {
        return Cut::Need { total: 5 };
    }
    let tag = bytes[0];
    if !is_backend_tag(tag) {
        return Cut::Unknown { tag };
    }
    let length = u32::from_be_bytes([bytes[1], bytes[2], bytes[3], bytes[4]]);
    if length < 4 {
        return Cut::Short { tag, length };
    }
    let total = 1 + u64::from(length);
    if (bytes.len() as u64) < total {
        return Cut::Need { total };
    }
    Cut::Whole { tag, total }
}
