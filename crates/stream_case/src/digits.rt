//! Numbers in digits.
ghost use Rattle.std.specs.Prelude.{◌≡◌, ◌<◌, ◌≤◌, ◌^◌, IfSome, unsigned_abs};
ghost use Rattle.stream_case.specs.Digits.{integer_in, natural_in};

/// The number that a text spells, if it has 1 to `most` ASCII digits and nothing else. Zeros may
/// lead (this project's rule for all its texts).
pub fn natural_of(text: &[u8], most: usize) -> Option<u128>
    requires { most ≤ 38 }
    ensures number { result ≡ natural_in most text.now }
    ensures small { IfSome result (λ n. n < 10 ^ most) }
{
    if text.is_empty() || text.len() > most {
        return None;
    }
    let mut number = 0;
    for digit in text {
        if !digit.is_ascii_digit() {
            return None;
        }
        number = number * 10 + u128::from(*digit - b'0');
    }
    Some(number)
}

/// The size that 1 to `most` ASCII digits spell.
fn size_of(text: &[u8], most: usize) -> Option<u128>
    requires { most ≤ 38 }
    ensures size { result ≡ natural_in most text.now }
    ensures small { IfSome result (λ size. size < 10 ^ most) }
    ensures signed { IfSome result (λ size. size < 10 ^ 38) }
{
    natural_of(text, most)
}

/// The whole number that a text spells, if it is an optional `-` and 1 to `most` ASCII digits, and
/// nothing else. Zeros may lead (this project's rule for all its texts).
#[tactic(auto, unfolding(crate::specs::Digits::integer_in))]
pub fn integer_of(text: &[u8], most: usize) -> Option<i128>
    requires { most ≤ 38 }
    ensures number { result ≡ integer_in most text.now }
    ensures small { IfSome result (λ number. unsigned_abs number < 10 ^ most) }
{
    if !text.is_empty() && text[0] == b'-' {
        size_of(&text[1..], most).map(|size| -(size as i128))
    } else {
        size_of(text, most).map(|size| size as i128)
    }
}
