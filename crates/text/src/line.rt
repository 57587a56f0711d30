// A line of text, written from the start of a lent buffer on. What does not fit is dropped.
ghost use Rattle.std.specs.Prelude.{◌≡◌, ◌∷◌, ◌-◌, ◌≤◌, ◌<◌, length, drop};
ghost use Rattle.text.specs.Line.{line_of, pushed, appended};
ghost use Rattle.text.specs.Written.{text_in};
ghost use Rattle.text.specs.Hex.{digit_of, hex_word};
ghost use Rattle.text.specs.Decimal.{decimal};

// The buffer, and how many of its bytes are text so far.
#[derive(Drop)]
pub struct Line<'a> {
    pub bytes: &'a mut [u8],
    pub length: usize,
}

fn digit(value: u8) -> u8
    requires { value < 16 }
    ensures { result ≡ digit_of value }
{
    if value < 10 {
        b'0' + value
    } else {
        b'A' + (value - 10)
    }
}

impl<'a> Line<'a> {
    pub fn new(bytes: &'a mut [u8]) -> Line<'a>
        ensures same_buffer { result.bytes.ghost_name ≡ bytes.entry.ghost_name }
        ensures text { text_in result ≡ line_of bytes.old 0 }
    {
        Line { bytes, length: 0 }
    }

    #[tactic(auto, using(crate::proofs::Typing::pushed_room, crate::proofs::Typing::pushed_full))]
    pub fn push(&mut self, byte: u8)
        ensures same_buffer { self.new.bytes.ghost_name ≡ self.old.bytes.ghost_name }
        ensures text { text_in self.new ≡ pushed (text_in self.old) byte }
    {
        if self.length < self.bytes.len() {
            self.bytes[self.length] = byte;
            self.length += 1;
        }
    }

    // The last digits of a word in hexadecimal, at most its eight.
    #[tactic(auto, using(crate::proofs::Typing::typed_digit, crate::proofs::Typing::typed_word_end))]
    pub fn hex(&mut self, word: u32, digits: u32)
        ensures same_buffer { self.new.bytes.ghost_name ≡ self.old.bytes.ghost_name }
        ensures text { text_in self.new ≡ appended (text_in self.old) (drop (8 - digits) (hex_word word)) }
    {
        for place in 8u32.saturating_sub(digits)..8 {
            self.push(digit(((word >> (28 - 4 * place)) % 16) as u8));
        }
    }

    // Text as it is.
    #[tactic(auto, using(crate::proofs::Typing::typed_next, crate::proofs::Typing::typed_none))]
    pub fn append(&mut self, text: &[u8])
        ensures same_buffer { self.new.bytes.ghost_name ≡ self.old.bytes.ghost_name }
        ensures text { text_in self.new ≡ appended (text_in self.old) text.now }
    {
        for byte in text {
            self.push(*byte);
        }
    }

    // A number in decimal digits, the highest first. No number here has more than twenty.
    #[tactic(auto, using(crate::proofs::Digits::decimal_laws))]
    pub fn decimal(&mut self, value: u64)
        ensures same_buffer { self.new.bytes.ghost_name ≡ self.old.bytes.ghost_name }
        ensures text { text_in self.new ≡ appended (text_in self.old) (decimal value) }
        ensures short { length (decimal value) ≤ 20 }
    {
        if value >= 10 {
            self.decimal(value / 10);
        }
        self.push(b'0' + (value % 10) as u8);
    }

    // A space and a number.
    #[tactic(auto, unfolding(crate::specs::Line::appended))]
    pub fn field(&mut self, value: u64)
        ensures same_buffer { self.new.bytes.ghost_name ≡ self.old.bytes.ghost_name }
        ensures text { text_in self.new ≡ appended (text_in self.old) (32 ∷ decimal value) }
        ensures short { length (decimal value) ≤ 20 }
    {
        self.push(b' ');
        self.decimal(value);
    }
}

// Text as it is, at the start of a buffer; its length.
pub fn copy(bytes: &mut [u8], text: &[u8]) -> usize
    ensures { line_of bytes.new result ≡ appended (line_of bytes.old 0) text.now }
{
    let mut line = Line::new(bytes);
    line.append(text);
    line.length
}

// The same for callers that keep the length themselves: each answers the new one.

pub fn push(line: &mut [u8], n: usize, byte: u8) -> usize
    ensures { line_of line.new result ≡ pushed (line_of line.old n) byte }
{
    let mut on = Line {
        bytes: line,
        length: n,
    };
    on.push(byte);
    on.length
}

pub fn append(line: &mut [u8], n: usize, text: &[u8]) -> usize
    ensures { line_of line.new result ≡ appended (line_of line.old n) text.now }
{
    let mut on = Line {
        bytes: line,
        length: n,
    };
    on.append(text);
    on.length
}

pub fn decimal(line: &mut [u8], n: usize, value: u64) -> usize
    ensures { (line_of line.new result ≡ appended (line_of line.old n) (decimal value)) × (length (decimal value) ≤ 20) }
{
    let mut on = Line {
        bytes: line,
        length: n,
    };
    on.decimal(value);
    on.length
}
