ghost use Rattle.std.specs.Prelude.{◌≡◌};
ghost use Rattle.pg_auth.specs.Hmac.{xor_bytes};

// Each byte of `left` by exclusive or with that of `right` at its place.
pub(crate) fn xored<const N: usize>(mut left: [u8; N], right: &[u8; N]) -> [u8; N]
    ensures { result ≡ xor_bytes left.entry right.now }
{
    for i in 0..N {
        left[i] ^= right[i];
    }
    left
}
