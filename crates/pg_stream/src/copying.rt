ghost use Rattle.std.specs.Prelude.{◌≡◌, length, take, min};

/// Copies as much of the front of some bytes as fits.
pub(crate) fn copy_front(into: &mut [u8], bytes: &[u8]) -> usize
    ensures size { result ≡ min (length bytes.now) (length into.new) }
    ensures copied { take result into.new ≡ take result bytes.now }
{
    let count = bytes.len().min(into.len());
    into[..count].copy_from_slice(&bytes[..count]);
    count
}
