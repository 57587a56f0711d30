// What a row that one colour is laid over needs to know of the colour, found once.
ghost use Rattle.std.specs.Prelude.{◌≡◌, ◌+◌, ◌-◌, ◌*◌, ◌<◌};

use pixel::Colour;

// A colour, the complements of its channels, two in a word, and that of its alpha.
#[derive(Clone, Copy)]
pub struct Solid {
    pub colour: Colour,
    pub low: u16,
    pub high: u16,
    pub rest: u8,
    pub ghost alpha_fits: { colour.alpha < 256 },
    pub ghost red_fits: { colour.red < 256 },
    pub ghost green_fits: { colour.green < 256 },
    pub ghost blue_fits: { colour.blue < 256 },
    pub ghost low_is: { low ≡ 65535 - (colour.blue + colour.green * 256) },
    pub ghost high_is: { high ≡ 65535 - (colour.red + colour.alpha * 256) },
    pub ghost rest_is: { rest ≡ 255 - colour.alpha },
}

pub fn solid_of(c: Colour) -> Solid
    ensures { result.colour ≡ c }
{
    Solid {
        colour: c,
        low: 65535 - (c.blue as u16 + c.green as u16 * 256),
        high: 65535 - (c.red as u16 + c.alpha as u16 * 256),
        rest: 255 - c.alpha,
    }
}
