// Who drew a byte of a replay's memory last, or a pixel of a page there: `touched FILE ADDRESS`, or
// `touched FILE ADDRESS STRIDE FORMAT X Y`.
#![tactic(auto)]

use inquiry::Question;
use std::rt::Env;

// The first byte of the pixel that the arguments name, of a page that begins at an address. What is wrong with them is reported.
fn pixel(rt: &(impl Env + Eprint), address: u32) -> Option<usize> {
    let mut text = command::buffer();
    let stride = command::number_in(rt, command::argument(rt, 3, &mut text), b"STRIDE")?;
    let format = command::format_in(rt, command::argument(rt, 4, &mut text))?;
    let x = command::number_in(rt, command::argument(rt, 5, &mut text), b"X")?;
    let y = command::number_in(rt, command::argument(rt, 6, &mut text), b"Y")?;
    let at = ppm::pixel_of(address, stride, format, x, y);
    if at.is_none() {
        command::complain(
            rt,
            b"the pixel",
            b" has X or Y over 4095, or STRIDE is over 65535\n",
        );
    }
    at
}

// The byte that the arguments name.
fn pixel_argument(rt: &(impl Env + Eprint), count: usize) -> Option<usize> {
    if (count != 3) & (count != 7) {
        command::complain(rt, b"touched", b" takes two arguments, or six\n");
        return None;
    }
    let mut text = command::buffer();
    let address = command::number_in(rt, command::argument(rt, 2, &mut text), b"ADDRESS")?;
    if count == 3 {
        return Some(address as usize);
    }
    pixel(rt, address)
}

// How to give the arguments.
fn usage(rt: &impl Eprint) {
    command::complain(
        rt,
        b"usage: touched FILE ADDRESS\n   or: touched FILE ADDRESS STRIDE FORMAT X Y\n",
        b"numbers in decimal; FORMAT is argb8888, rgb888 or rgb565\n",
    );
}

fn main(rt: HostRuntime) {
    let Some(address) = pixel_argument(&rt, command::argument_count(&rt)) else {
        usage(&rt);
        return;
    };
    let question = Question { address, ticket: 0 };
    let Ok(inquiry) = inquiry_io::ask(&rt, question) else {
        return;
    };
    let mut line = [0u8; 128];
    inquiry_io::print_touched(
        &rt,
        &mut line,
        inquiry::answers::who_touched(question, inquiry),
    );
}
