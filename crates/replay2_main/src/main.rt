// Prints the lines of a replay file of edition 2: the one that its argument names, or standard input. With --slow before it the file is run
// by the slow engine, which prints the same lines.
#![tactic(auto)]

use records::Edition;

fn main(rt: HostRuntime) {
    let _came = replay_io::programs::print_lines(
        &rt,
        Edition::Second,
        b"usage: replay2 [--slow] [FILE]\n",
    );
}
