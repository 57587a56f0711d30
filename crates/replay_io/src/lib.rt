// Replay files of either edition read and replayed, and their lines written to standard output. No contract can say
// which bytes the system reads, or what it does with those that it is to write; that the memory is what some bytes make of it is proved,
// and how many bytes were handed over to be written: as many as the lines of those bytes have.
#![tactic(auto)]

pub mod programs;

ghost use Rattle.replay_pieces.specs.Reached.{Replayed};
ghost use Rattle.replay_io.specs.Reading.{Leads, stays, goes_on};

use command::{Failed, Feed, Opened};
use records::Edition;
use renderer::Renderer;
use replay::Replay;
use replay_pieces::gather::LINE;
use std::io::Read;
use std::rt::{Env, Files};

// A file that is replayed: where it stands, what it is replayed in, and how many bytes were handed to the system to write (modulo 2 to the
// 64th). The longest record of either edition has room in `held`.
#[derive(Drop)]
struct Reading<'a> {
    replay: Replay,
    held: [u8; 32777],
    ring: [u8; 32768],
    memory: &'a mut [u8],
    handed: u64,
    // Kept (no plainer): whether lines are shown is a yes or no; an enum would say it in other words.
    shows: bool,
    renderer: Renderer,
}

impl<R: Print + Eprint> Feed<R> for Reading<'_> {
    ghost Reaches = { Leads };

    ghost reflexive = { stays };

    ghost transitive = { goes_on };

    fn feed(&mut self, rt: &R, piece: &[u8]) -> Result<(), Failed> {
        let fed = replay_pieces::feed_piece(
            rt,
            self.replay,
            &mut self.held,
            &mut self.ring,
            self.memory,
            piece,
            self.handed,
            self.shows,
            self.renderer,
        );
        self.replay = fed.replay;
        self.handed = fed.handed;
        fed.outcome
    }
}

// Replays what a file holds, to its end, in memory, which is to be 65,536 bytes. Shows the lines or not, by the slow engine
// or by the fast one. What failed is reported on standard error. Answers how many bytes were handed to the system to write (modulo 2 to the
// 64th).
pub fn replay_from(
    rt: &(impl Print + Eprint),
    edition: Edition,
    file: &mut impl Read,
    name: &[u8],
    memory: &mut [u8],
    shows: bool,
    renderer: Renderer,
) -> Result<u64, Failed>
    ensures { Replayed edition memory.old shows result memory.new }
{
    let mut reading = Reading {
        replay: replay::start(edition),
        held: [0u8; 32777],
        ring: [0u8; 32768],
        memory,
        handed: 0,
        shows,
        renderer,
    };
    command::read_all(rt, file, name, &mut reading)?;
    let mut line = [0u8; LINE];
    let last = replay_pieces::finish(rt, reading.replay, &mut line, shows);
    last.outcome?;
    Ok(reading.handed.wrapping_add(last.size as u64))
}

// The same, of the file that an argument of the program names.
pub fn replay_argument(
    rt: &(impl Files + Env + Print + Eprint),
    edition: Edition,
    index: usize,
    memory: &mut [u8],
    shows: bool,
    renderer: Renderer,
) -> Result<u64, Failed>
    ensures { Replayed edition memory.old shows result memory.new }
{
    let mut path = command::buffer();
    let Opened { mut file, path } = command::open_argument(rt, index, &mut path)?;
    replay_from(rt, edition, &mut file, path, memory, shows, renderer)
}
