//! The numbers of options.
ghost use Rattle.std.specs.Prelude.{◌≡◌, ◌<◌, ◌≤◌, true, IfSome};
ghost use Rattle.std.specs.List.{list_all};
ghost use Rattle.cx_options.specs.Arguments.{is_digit, is_number, number_in, number_of};

fn are_digits(text: &[u8]) -> bool
    ensures { result ≡ list_all is_digit text.now }
{
    text.iter().all(|byte| byte.is_ascii_digit())
}

// Whether a text is one to four decimal digits.
#[tactic(auto, unfolding(crate::specs::Arguments::is_number))]
fn is_number(text: &[u8]) -> bool
    ensures { result ≡ is_number text.now }
{
    are_digits(text) && (1 <= text.len() && text.len() <= 4)
}

// The value of at most four decimal digits.
fn number_of(text: &[u8]) -> u32
    requires { is_number text.now ≡ true }
    ensures { result ≡ number_of text.now }
{
    let mut number = 0;
    for byte in text {
        number = 10 * number + u32::from(*byte - b'0');
    }
    number
}

/// The number that a text is, where it is in a range.
#[tactic(auto, unfolding(crate::specs::Arguments::number_in))]
pub fn number_in(least: u32, greatest: u32, text: &[u8]) -> Option<u32>
    ensures number { result ≡ number_in least greatest text.now }
    ensures bound { IfSome result (λ n. n ≤ greatest) }
{
    if !is_number(text) {
        return None;
    }
    let number = number_of(text);
    if number < least || greatest < number {
        return None;
    }
    Some(number)
}
