//! The forms of tokens.

ghost use Rattle.std.specs.Prelude.{◌≡◌, ◌≤◌, ◌<◌, ◌^◌, ◌||◌, length, count_by, IsTrue};
ghost use Rattle.std.specs.List.{list_all};
ghost use Rattle.gf_fig_tokens.specs.Forms.{is_digit, after_sign, is_negative, digits_value, whole};
ghost use Rattle.gf_fig_tokens.specs.Forms.{is_point, are_digits_and_point, begins_with_digit};
ghost use Rattle.gf_fig_tokens.specs.Forms.{is_zero, decimal, colour};

use gf_plane::{Rgb, rgb_of_hex};

fn is_digit(b: u8) -> bool
    ensures { result ≡ is_digit b }
{
    48 <= b && b <= 57
}

fn are_digits(bytes: &[u8]) -> bool
    ensures { result ≡ list_all is_digit bytes.now }
{
    bytes.iter().all(|b| is_digit(*b))
}

fn after_sign(token: &[u8]) -> &[u8]
    ensures { result.now ≡ after_sign token.now }
{
    match token {
        [b, rest @ ..] if *b == b'-' || *b == b'+' => rest,
        _ => token,
    }
}

fn is_negative(token: &[u8]) -> bool
    ensures { result ≡ is_negative token.now }
{
    match token {
        [b, ..] => *b == b'-',
        [] => false,
    }
}

fn digits_value(digits: &[u8]) -> u64
    requires few { length digits.now ≤ 18 }
    requires digits { IsTrue (list_all is_digit digits.now) }
    ensures value { result ≡ digits_value digits.now }
    ensures small { result < 10 ^ 18 }
{
    let mut n = 0u64;
    for d in digits {
        n = 10 * n + (*d - 48) as u64;
    }
    n
}

/// An optional sign and 1 to 18 digits.
#[tactic(auto, unfolding(crate::specs::Forms::whole))]
pub fn whole(token: &[u8]) -> Option<i64>
    ensures { result ≡ whole token.now }
{
    let digits = after_sign(token);
    if 1 <= digits.len() && digits.len() <= 18 && are_digits(digits) {
        let n = digits_value(digits) as i64;
        Some(if is_negative(token) { 0 - n } else { n })
    } else {
        None
    }
}

/// '#' and six hexadecimal digits.
#[tactic(auto, unfolding(crate::specs::Forms::colour))]
pub(crate) fn colour(token: &[u8]) -> Option<Rgb>
    ensures { result ≡ colour token.now }
{
    match token {
        [b, digits @ ..] if *b == b'#' => rgb_of_hex(digits),
        _ => None,
    }
}

fn is_point(b: u8) -> bool
    ensures { result ≡ is_point b }
{
    b == b'.'
}

fn points(bytes: &[u8]) -> usize
    ensures { result ≡ count_by is_point bytes.now }
{
    bytes.iter().filter(|b| is_point(**b)).count()
}

fn begins_with_digit(bytes: &[u8]) -> bool
    ensures { result ≡ begins_with_digit bytes.now }
{
    match bytes {
        [] => false,
        [b, ..] => is_digit(*b),
    }
}

fn are_digits_or_points(bytes: &[u8]) -> bool
    ensures { result ≡ list_all (λ b. is_digit b || is_point b) bytes.now }
{
    bytes.iter().all(|b| is_digit(*b) || is_point(*b))
}

fn are_digits_and_point(bytes: &[u8]) -> bool
    ensures { result ≡ are_digits_and_point bytes.now }
{
    are_digits_or_points(bytes) && points(bytes) <= 1
}

/// Whether each digit is 0.
fn is_zero(token: &[u8]) -> bool
    ensures { result ≡ is_zero token.now }
{
    token.iter().all(|b| *b == b'0' || !is_digit(*b))
}

/// An optional sign, a digit, and digits with at most one '.'; and whether it is zero.
#[tactic(auto, unfolding(crate::specs::Forms::decimal))]
pub(crate) fn decimal(token: &[u8]) -> Option<bool>
    ensures { result ≡ decimal token.now }
{
    let digits = after_sign(token);
    if begins_with_digit(digits) && are_digits_and_point(digits) {
        Some(is_zero(token))
    } else {
        None
    }
}
