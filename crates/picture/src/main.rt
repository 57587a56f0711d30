// Shows a rectangle of the memory that a replay file leaves, as a picture (PPM) on standard output. With --slow before the file it is run by the slow
// engine, which leaves the same memory.
#![tactic(auto)]

ghost use Rattle.std.specs.Prelude.{false, ◌≤◌};
ghost use Rattle.records.specs.declared.Edition.TheVariants.{First};
ghost use Rattle.replay_pieces.specs.Reached.{ReplayedInZeros};

use command::Failed;
use records::Edition;
use renderer::Renderer;
use std::rt::{Env, Files};
use surface::Surface;

// The rectangle given by the five arguments after the file. What is wrong with them is reported.
fn rectangle_argument(rt: &(impl Env + Eprint), file: usize) -> Option<Surface>
    requires { file ≤ 2 }
{
    let mut text = command::buffer();
    let address = command::number_in(rt, command::argument(rt, file + 1, &mut text), b"ADDRESS")?;
    let stride = command::number_in(rt, command::argument(rt, file + 2, &mut text), b"STRIDE")?;
    let width = command::number_in(rt, command::argument(rt, file + 3, &mut text), b"WIDTH")?;
    let height = command::number_in(rt, command::argument(rt, file + 4, &mut text), b"HEIGHT")?;
    let format = command::format_in(rt, command::argument(rt, file + 5, &mut text))?;
    let rectangle = ppm::rectangle_of(address, stride, width, height, format);
    if rectangle.is_none() {
        command::complain(
            rt,
            b"the rectangle",
            b" does not lie in the 65536 bytes of memory, has a side outside 1 to 4096 or a stride over 65535\n",
        );
    }
    rectangle
}

// Writes the header and the rows, from the first to the last.
fn write_picture(rt: &(impl Print + Eprint), memory: &[u8], s: Surface) -> Result<(), Failed> {
    let mut line = [0u8; 64];
    let n = ppm::header(&mut line, s.width as u32, s.height as u32);
    command::print(rt, &line, n).outcome?;
    let mut out = command::large_buffer();
    for y in 0..s.height {
        let n = ppm::row(memory, s, y, &mut out).unwrap_or(0);
        command::print(rt, &out, n).outcome?;
    }
    Ok(())
}

// Replays the file that an argument names in 65,536 zero bytes, by the slow engine or by the fast one, and, if nothing failed, writes the picture of the
// rectangle. Of what is written no contract can say anything.
fn show(
    rt: &(impl Files + Env + Print + Eprint),
    s: Surface,
    file: usize,
    renderer: Renderer,
) -> Result<u64, Failed>
    ensures { ReplayedInZeros First false result }
{
    let mut memory = [0u8; 65536];
    let came = replay_io::replay_argument(rt, Edition::First, file, &mut memory, false, renderer);
    if came.is_ok() {
        let _written = write_picture(rt, &memory, s);
    }
    came
}

// How to give the arguments.
fn usage(rt: &impl Eprint) {
    command::complain(
        rt,
        b"usage: picture [--slow] FILE ADDRESS STRIDE WIDTH HEIGHT FORMAT\n",
        b"numbers in decimal; FORMAT is argb8888, rgb888 or rgb565\n",
    );
}

fn main(rt: HostRuntime) {
    let choice = replay_io::programs::asked(&rt);
    let file = choice.file;
    if command::argument_count(&rt) != file + 6 {
        command::complain(
            &rt,
            b"picture",
            b" takes six arguments, or --slow and six\n",
        );
        usage(&rt);
        return;
    }
    let Some(s) = rectangle_argument(&rt, file) else {
        usage(&rt);
        return;
    };
    let _came = show(&rt, s, file, choice.renderer);
}
