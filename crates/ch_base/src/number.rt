//! Numbers as texts spell them.

ghost use Rattle.std.specs.Prelude.{◌≡◌, ℕ, ◌<◌, ◌≤◌, ◌^◌, length, IsTrue, nat_le, if◌then◌else◌};
ghost use Rattle.std.specs.List.{list_all};
ghost use Rattle.std.specs.Str.Parse.{digits_value};
ghost use Rattle.std.specs.Char.{digit_value};
ghost use Rattle.ch_base.specs.Numbers.{number_of, is_digit_of, has_no_leading_zero};

fn is_digit(b: u8) -> bool
    ensures { result ≡ is_digit_of b }
{
    b'0' <= b && b <= b'9'
}

fn all_digits(bytes: &[u8]) -> bool
    ensures { result ≡ list_all is_digit_of bytes.now }
{
    bytes.iter().all(|b| is_digit(*b))
}

fn leads_well(bytes: &[u8]) -> bool
    ensures { result ≡ has_no_leading_zero bytes.now }
{
    match bytes {
        [] => false,
        [_] => true,
        [first, ..] => *first != b'0',
    }
}

/// The number that these bytes spell in decimal digits without a sign and without a leading zero.
/// None exactly where they spell none, or one that is greater than `most`. It takes no memory.
pub fn read_number(bytes: &[u8], most: u32) -> Option<u32>
    ensures { result ≡ number_of most bytes.now }
{
    if !bytes.is_empty() && all_digits(bytes) && leads_well(bytes) {
        value_up_to(bytes, most)
    } else {
        None
    }
}

/// The number that digits spell, where it isn't greater than `most`.
fn value_up_to(bytes: &[u8], most: u32) -> Option<u32>
    requires { IsTrue (list_all is_digit_of bytes.now) }
    ensures { result ≡ (if nat_le (digits_value 10 bytes.now) most then Some (digits_value 10 bytes.now) else None) }
{
    let mut value: u64 = 0;
    for b in bytes {
        value = value * 10 + digit_of(*b);
        if value > u64::from(most) {
            return None;
        }
    }
    Some(value as u32)
}

/// What one digit stands for.
fn digit_of(b: u8) -> u64
    ensures small { result < 256 }
    ensures value { IsTrue (is_digit_of b) → result ≡ digit_value b }
{
    if is_digit(b) { u64::from(b - b'0') } else { 0 }
}
