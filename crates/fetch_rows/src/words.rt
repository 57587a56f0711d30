// ARGB8888 pixels as words. The four bytes of such a pixel, low byte first, are the word of its colour, so no conversion is needed.
ghost use Rattle.std.specs.Prelude.{◌≡◌, ◌+◌, ◌≤◌, length};
ghost use Rattle.surface.specs.Drawn.{load_pixel, store_pixel};
ghost use Rattle.row_pixels.specs.Row.{word_colour, row_stored, RowIsWide};

use pixel::{Colour, Format};
use word::{read_le32, write_le32};

// The word that stands for a colour.
pub fn word_of(c: Colour) -> u32
    ensures { word_colour result ≡ c }
{
    Format::Argb8888.pack(c)
}

// The word of the pixel at an address.
pub fn load_word(memory: &[u8], at: usize) -> u32
    requires { at + 4 ≤ length memory.now }
    ensures { word_colour result ≡ load_pixel Format.Argb8888 memory.now at }
{
    read_le32(memory, at)
}

// Stores a word as the pixel at an address.
pub fn store_word(row: &mut [u8], at: usize, word: u32)
    requires { at + 4 ≤ length row.old }
    ensures { row.new ≡ store_pixel Format.Argb8888 row.old at (word_colour word) }
{
    write_le32(row, at, word);
}

// Stores one word in all of a row.
pub fn fill_words(row: &mut [u8], width: usize, word: u32)
    requires { RowIsWide row.old width Format.Argb8888 }
    ensures { row.new ≡ row_stored Format.Argb8888 (λ x. word_colour word) row.old }
{
    for x in 0..width {
        store_word(row, x * 4, word);
    }
}
