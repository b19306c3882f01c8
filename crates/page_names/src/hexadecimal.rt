ghost use Rattle.std.specs.Prelude.{◌≡◌, ◌-◌, ◌^◌, min, true};
ghost use Rattle.std.specs.Char.{digit_value};
ghost use Rattle.std.specs.List.{list_all};
ghost use Rattle.std.specs.Str.Parse.{digits_value};
ghost use Rattle.page_names.specs.Hex.{is_hex_digit, hex_number};

fn are_hex_digits(bytes: &[u8]) -> bool
    ensures { result ≡ list_all is_hex_digit bytes.now }
{
    bytes
        .iter()
        .all(|byte| matches!(*byte, b'0'..=b'9' | b'a'..=b'f'))
}

// The value of a digit.
#[tactic(auto, using(crate::proofs::Hex::decimal_digit, crate::proofs::Hex::letter_digit))]
fn value_of(digit: u8) -> u64
    requires { is_hex_digit digit ≡ true }
    ensures { result ≡ digit_value digit }
{
    if digit <= b'9' {
        u64::from(digit.saturating_sub(b'0'))
    } else {
        u64::from(digit.saturating_sub(b'a')) + 10
    }
}

// The number of these digits; one above `u64::MAX` counts as that.
fn number(digits: &[u8]) -> u64
    requires { list_all is_hex_digit digits.now ≡ true }
    ensures { result ≡ min (digits_value 16 digits.now) (2 ^ 64 - 1) }
{
    let mut number: u64 = 0;
    for digit in digits {
        number = number.saturating_mul(16).saturating_add(value_of(*digit));
    }
    number
}

/// The number of these 16 lower-case hexadecimal digits.
#[tactic(auto, using(crate::proofs::Hex::hex_read))]
pub fn hex_number(digits: &[u8]) -> Option<u64>
    ensures { result ≡ hex_number digits.now }
{
    if digits.len() != 16 || !are_hex_digits(digits) {
        return None;
    }
    Some(number(digits))
}
