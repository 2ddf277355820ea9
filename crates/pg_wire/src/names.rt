ghost use Rattle.std.specs.Prelude.{◌≡◌, ◌<◌, ◌≤◌, ◌++◌, length, codes, decimal};
ghost use Rattle.pg_wire.specs.Bytes.{HasNoNul};

use arrayvec::ArrayString;
use itoa::Buffer;

// The name of a number behind this prefix of seven bytes.
#[tactic(auto, using(crate::proofs::NameLaws::numbered_nul_free))]
pub(crate) fn numbered(prefix: &str, number: u32) -> ArrayString<17>
    requires seven { length prefix.now ≡ 7 }
    requires text { HasNoNul prefix.now }
    ensures name { result.bytes ≡ prefix.now ++ decimal number }
    ensures text { HasNoNul result.bytes }
    ensures short { length result.bytes ≤ 17 }
{
    let mut name = ArrayString::new();
    let mut buffer = Buffer::new();
    name.push_str(prefix);
    name.push_str(buffer.format(number));
    name
}
