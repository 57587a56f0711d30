// Numbers in decimal digits, read from a text.
ghost use Rattle.std.specs.Prelude.{◌≡◌, ◌+◌, ◌*◌, ◌≤◌, length, drop, SomeIff};
ghost use Rattle.text.specs.Numerals.{numeral_from};

// A number that digits stand for, and where in the text they end.
#[derive(Clone, Copy, PartialEq, Eq)]
pub struct Numeral {
    pub value: u64,
    pub end: usize,
}

// A number with one digit more behind it, if it does not pass the largest one.
fn with_digit(value: u64, digit: u8, largest: u64) -> Option<u64>
    ensures { SomeIff result (value * 10 + digit ≤ largest) (value * 10 + digit) }
{
    let more = value.checked_mul(10)?.checked_add(digit as u64)?;
    if more <= largest { Some(more) } else { None }
}

// The number that digits stand for from a place of a text on, up to the first character that is no digit or with which the number would pass the
// largest one. Where there is none it is 0 and ends where it began.
#[tactic(auto, using(crate::proofs::numerals::Reading::numeral_more, crate::proofs::numerals::Reading::numeral_low, crate::proofs::numerals::Reading::numeral_high, crate::proofs::numerals::Reading::numeral_large, crate::proofs::numerals::Reading::numeral_end))]
pub fn read(text: &[u8], at: usize, largest: u64) -> Numeral
    ensures { (result ≡ numeral_from largest 0 at (drop at text.now)) × (result.end ≤ at + length text.now) }
{
    let rest = &text[at.min(text.len())..];
    let mut value: u64 = 0;
    let mut end = at;
    for byte in rest {
        if !byte.is_ascii_digit() {
            break;
        }
        match with_digit(value, *byte - b'0', largest) {
            Some(more) => value = more,
            None => break,
        }
        end += 1;
    }
    Numeral { value, end }
}
