// What the programs that replay a file by either engine share: whether their arguments ask for the slow one; and what the two that print lines share, the
// memory that a file is replayed in.
ghost use Rattle.std.specs.Prelude.{◌≡◌, ◌≤◌, true};
ghost use Rattle.replay_pieces.specs.Reached.{ReplayedInZeros};
ghost use Rattle.replay_io.specs.Arguments.{slow_word, file_argument};

use command::Failed;
use records::Edition;
use renderer::Renderer;
use std::io::Input;
use std::rt::{Env, Files};

// Whether a word asks for the slow engine.
fn is_slow(text: &[u8]) -> bool
    ensures { (result ≡ true → text.now ≡ slow_word) × (text.now ≡ slow_word → result ≡ true) }
{
    check::same(text, b"--slow")
}

// Which engine the arguments ask for, and which of them comes after that: the file's, where there is one.
#[derive(Clone, Copy)]
pub struct Choice {
    pub renderer: Renderer,
    pub file: usize,
}

// What the first argument asks for. One that is missing or too long for the buffer counts as empty.
pub fn asked(rt: &impl Env) -> Choice
    ensures { (result.file ≡ file_argument result.renderer) × (result.file ≤ 2) }
{
    let mut text = command::buffer();
    if is_slow(command::argument(rt, 1, &mut text)) {
        return Choice {
            renderer: Renderer::Slow,
            file: 2,
        };
    }
    Choice {
        renderer: Renderer::Fast,
        file: 1,
    }
}

// Prints the lines of a replay file of an edition: the one that the program's argument names, or standard input. With --slow before it the
// file is run by the slow engine, which prints the same lines. With other arguments `usage` is reported on standard error.
pub fn print_lines(
    rt: &(impl Files + Env + Input + Print + Eprint),
    edition: Edition,
    usage: &[u8],
) -> Result<u64, Failed>
    ensures { ReplayedInZeros edition true result }
{
    let Choice { renderer, file } = asked(rt);
    let count = command::argument_count(rt);
    let mut memory = [0u8; 65536];
    if count == file {
        let name = b"standard input";
        return crate::replay_from(
            rt,
            edition,
            &mut rt.reader(),
            name,
            &mut memory,
            true,
            renderer,
        );
    }
    if count == file + 1 {
        return crate::replay_argument(rt, edition, file, &mut memory, true, renderer);
    }
    command::complain(rt, usage, b"");
    Err(Failed)
}
