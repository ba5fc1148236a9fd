// Numbers in decimal digits.
ghost use Rattle.std.specs.Prelude.{◌≡◌, ◌+◌, ◌*◌, ◌<◌, ◌≤◌, IfSome};
ghost use Rattle.zv_input.specs.Numbers.{number, number_on};

// What digits make of the number before them, unless it comes above a limit.
#[tactic(auto, using(crate::proofs::Decimals::digit_steps))]
fn read_digits(digits: &[u8], most: u32) -> Option<u32>
    requires { 10 * most + 9 < 4294967296 }
    ensures number { result ≡ number_on most 0 digits.now }
    ensures bound { IfSome result (λ n. n ≤ most) }
{
    let mut number = 0u32;
    for digit in digits {
        if !digit.is_ascii_digit() {
            return None;
        }
        number = 10 * number + u32::from(*digit - b'0');
        if number > most {
            return None;
        }
    }
    Some(number)
}

/// The number that a word spells in decimal without leading zeros, or `None` where it spells none,
/// or one above a limit.
pub fn read_number(word: &[u8], most: u32) -> Option<u32>
    requires { 10 * most + 9 < 4294967296 }
    ensures number { result ≡ number most word.now }
    ensures bound { IfSome result (λ n. n ≤ most) }
{
    match word {
        [] | [b'0', _, ..] => None,
        _ => read_digits(word, most),
    }
}
