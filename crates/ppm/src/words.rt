// What words of a command line mean: numbers, and names of formats.
ghost use Rattle.std.specs.Prelude.{◌≡◌};
ghost use Rattle.ppm.specs.Words.{parse_number, format_named};

use pixel::Format;

// A number in decimal digits, and nothing else. The reading stops as soon as the number is too large, so that no sum wraps, however long the text is.
pub fn number_of(text: &[u8]) -> Option<u32>
    ensures { result ≡ parse_number text.now }
{
    let numeral = text::numerals::read(text, 0, u32::MAX as u64);
    if !text.is_empty() && numeral.end == text.len() {
        Some(numeral.value as u32)
    } else {
        None
    }
}

pub fn format_named(text: &[u8]) -> Option<Format>
    ensures { result ≡ format_named text.now }
{
    if text.eq_ignore_ascii_case(b"argb8888") {
        return Some(Format::Argb8888);
    }
    if text.eq_ignore_ascii_case(b"rgb888") {
        return Some(Format::Rgb888);
    }
    if text.eq_ignore_ascii_case(b"rgb565") {
        return Some(Format::Rgb565);
    }
    None
}
