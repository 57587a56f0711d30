// Lines of a replay gathered in one buffer.
ghost use Rattle.replay_pieces.specs.Gather.{FeedLinesContract};

use renderer::Renderer;
use replay::{FeedResult, Replay};

// The longest line has room in so many bytes.
pub const LINE: usize = 128;

// Feeds what the lines have room for: the bytes used of the input, and those written of `out`, line after line. It stops where nothing is
// used, which happens only where `held` is too short.
// Kept (no plainer): a turn takes as many bytes as it used, so neither a range nor chunks of one size fit.
pub fn feed_lines(
    replay: Replay,
    held: &mut [u8],
    ring: &mut [u8],
    memory: &mut [u8],
    input: &[u8],
    out: &mut [u8],
    renderer: Renderer,
) -> FeedResult
    ensures { FeedLinesContract replay held.old ring.old memory.old input.now out.old result held.new ring.new memory.new out.new }
{
    let mut now = replay;
    let mut used = 0;
    let mut written = 0;
    while (used < input.len()) & (LINE <= out.len() - written) {
        let fed = replay::feed(
            now,
            held,
            ring,
            memory,
            &input[used..],
            &mut out[written..],
            renderer,
        );
        let after = fed.replay;
        let taken = fed.used;
        now = after;
        written += fed.written;
        used += taken;
        if taken == 0 {
            break;
        }
    }
    FeedResult {
        replay: now,
        used,
        written,
    }
}
