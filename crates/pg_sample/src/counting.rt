ghost use Rattle.std.specs.Prelude.{◌≡◌};
ghost use Rattle.pg_sample.specs.Counts.{count_of};

/// The most steps that a sample has.
pub(crate) const MOST: u32 = 100000;

/// The number of steps that a word says: decimal digits, of a number from 1 to 100000.
pub fn count_of(word: &str) -> Option<u32>
    ensures { result ≡ count_of word.now }
{
    let mut count = 0u32;
    for digit in word.as_bytes() {
        if !digit.is_ascii_digit() {
            return None;
        }
        count = count * 10 + u32::from(*digit - b'0');
        if count > MOST {
            return None;
        }
    }
    if count == 0 { None } else { Some(count) }
}
