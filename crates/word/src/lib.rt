// Numbers in bytes: 32-bit words of either byte order, and fields of a word.
#![tactic(auto)]

ghost use Rattle.std.specs.Prelude.{◌≡◌, ◌+◌, ◌*◌, ◌≤◌, ◌<◌, [], ◌∷◌, length};
ghost use Rattle.word.specs.Word.{le32, le32_at, be32_at, le_bytes, words_bytes};
ghost use Rattle.word.specs.Field.{field};
ghost use Rattle.word.specs.Splice.{spliced};

// The little-endian word of four bytes.
pub fn join_le32(a: u8, b: u8, c: u8, d: u8) -> u32
    ensures { result ≡ le32 a b c d }
{
    u32::from_le_bytes([a, b, c, d])
}

// The little-endian word at an offset of `bytes`.
#[tactic(auto, unfolding(crate::specs::Word::le32_at))]
pub fn read_le32(bytes: &[u8], at: usize) -> u32
    requires { at + 4 ≤ length bytes.now }
    ensures { result ≡ le32_at bytes.now at }
{
    join_le32(bytes[at], bytes[at + 1], bytes[at + 2], bytes[at + 3])
}

// The big-endian word at an offset of `bytes`.
#[tactic(auto, unfolding(crate::specs::Word::be32_at))]
pub fn read_be32(bytes: &[u8], at: usize) -> u32
    requires { at + 4 ≤ length bytes.now }
    ensures { result ≡ be32_at bytes.now at }
{
    u32::from_be_bytes([bytes[at], bytes[at + 1], bytes[at + 2], bytes[at + 3]])
}

// Writes a word at an offset of `bytes`, low byte first.
pub fn write_le32(bytes: &mut [u8], at: usize, word: u32)
    requires { at + 4 ≤ length bytes.old }
    ensures { bytes.new ≡ spliced at (le_bytes word) bytes.old }
{
    let [a, b, c, d] = word.to_le_bytes();
    bytes[at] = a;
    bytes[at + 1] = b;
    bytes[at + 2] = c;
    bytes[at + 3] = d;
}

// Writes words from an offset of `bytes` on, one after the other, each low byte first.
pub fn write_le_words(bytes: &mut [u8], at: usize, words: &[u32])
    requires { at + 4 * length words.now ≤ length bytes.old }
    ensures { bytes.new ≡ spliced at (words_bytes words.now) bytes.old }
{
    for (k, &word) in words.iter().enumerate() {
        write_le32(bytes, at + 4 * k, word);
    }
}

// Bits `hi` to `lo` of a word. In 64 bits, so that a field may be as wide as the word.
pub fn bits(word: u32, hi: u32, lo: u32) -> u32
    requires { (lo ≤ hi) × (hi < 32) }
    ensures { result ≡ field hi lo word }
{
    (((word as u64) >> lo) % (1u64 << (hi + 1 - lo))) as u32
}
