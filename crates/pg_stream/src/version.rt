ghost use Rattle.std.specs.Prelude.{◌≡◌, ◌∷◌, [], ◌+◌, ◌-◌, ◌*◌, true, option_map};
ghost use Rattle.std.specs.Char.{is_ascii_digit};
ghost use Rattle.pg_stream.specs.Versions.{version_of, version_by, within};
ghost use Rattle.pg_stream.specs.VersionReading.{number_at, further_at};

// The number that a digit makes of the one before it.
fn with_digit(value: u32, digit: u8) -> Option<u32>
    requires { is_ascii_digit digit ≡ true }
    ensures { result ≡ within (value * 10 + (digit - 48)) }
{
    fitting(u64::from(value) * 10 + u64::from(digit - b'0'))
}

// The number at the front, and what follows its digits.
#[tactic(auto, unfolding(crate::specs::VersionReading::number_at))]
fn number(text: &[u8]) -> Option<(u32, &[u8])>
    ensures { option_map (λ x. (x.0, x.1.now)) result ≡ number_at text.now }
{
    let mut value = 0u32;
    let mut count = 0;
    while count < text.len() && text[count].is_ascii_digit() {
        let Some(next) = with_digit(value, text[count]) else {
            return None;
        };
        value = next;
        count += 1;
    }
    if count == 0 {
        return None;
    }
    Some((value, &text[count..]))
}

// The number behind a dot.
#[tactic(auto, unfolding(crate::specs::VersionReading::further_at))]
fn further_number(text: &[u8]) -> Option<(u32, &[u8])>
    ensures { option_map (λ x. (x.0, x.1.now)) result ≡ further_at text.now }
{
    let (first, rest) = text.split_first()?;
    if *first != b'.' {
        return None;
    }
    number(rest)
}

fn fitting(number: u64) -> Option<u32>
    ensures { result ≡ within number }
{
    if number <= u64::from(u32::MAX) {
        return Some(number as u32);
    }
    None
}

// A version of two numbers.
fn version_of_two(major: u32, minor: u32) -> Option<u32>
    ensures { result ≡ version_by (major ∷ minor ∷ []) }
{
    let (major, minor) = (u64::from(major), u64::from(minor));
    if major >= 10 {
        return fitting(10000 * major + minor);
    }
    fitting(10000 * major + 100 * minor)
}

// A version of three numbers.
fn version_of_three(major: u32, minor: u32, patch: u32) -> Option<u32>
    ensures { result ≡ version_by (major ∷ minor ∷ patch ∷ []) }
{
    fitting(10000 * u64::from(major) + 100 * u64::from(minor) + u64::from(patch))
}

/// The number of a server's version, by the text of its parameter `server_version`: `9.6.1` is 90601, `10.1` is 100001 and
/// `16.3 (Debian)` is 160003. It is none where the text begins with no number, or with more than three that dots join, or where it
/// does not fit. (PostgreSQL manual, "Preset Options", `server_version_num`.)
pub fn parse_server_version(text: &str) -> Option<u32>
    ensures { result ≡ version_of text.now }
{
    let (major, rest) = number(text.as_bytes())?;
    let Some((minor, rest)) = further_number(rest) else {
        return fitting(10000 * u64::from(major));
    };
    let Some((patch, rest)) = further_number(rest) else {
        return version_of_two(major, minor);
    };
    match further_number(rest) {
        Some(_) => None,
        None => version_of_three(major, minor, patch),
    }
}
