// A replay file of either edition read as records, a piece at a time and in constant memory. The caller lends `held`, for the bytes of one record.
#![tactic(auto)]

pub mod editions;

ghost use Rattle.std.specs.Prelude.{◌≡◌, ◌+◌, ◌≤◌, ◌<◌, length, take};
ghost use Rattle.records.specs.declared.Stage.TheVariants.{Version, Records};
ghost use Rattle.records.specs.Records.{version_of, bad_size};
ghost use Rattle.word.specs.Splice.{spliced};
ghost use Rattle.records.specs.Reading.{room_of, batch_start, bytes_wanted, ReaderReady, Takes, Lies, wait_for_more, after_record_bytes, version_taken, nothing_taken, kept_in, record_taken, taken_by, held_after};

// The edition of a file. The second has a score in each record.
#[derive(Clone, Copy, PartialEq, Eq)]
pub enum Edition {
    First,
    Second,
}

impl Edition {
    pub fn version(self) -> u8
        ensures { result ≡ version_of self }
    {
        match self {
            Edition::First => 1,
            Edition::Second => 2,
        }
    }

    // The bytes of the longest record and of its length: so long `held` is to be.
    pub fn room(self) -> usize
        ensures { result ≡ room_of self }
    {
        match self {
            Edition::First => 32773,
            Edition::Second => 32777,
        }
    }

    // Where the batch of a record begins in `held`.
    pub fn batch_start(self) -> usize
        ensures { result ≡ batch_start self }
    {
        match self {
            Edition::First => 5,
            Edition::Second => 9,
        }
    }
}

// What is to come next: the version byte, a record, or nothing that is looked at.
#[derive(Clone, Copy, PartialEq, Eq)]
pub enum Stage {
    Version,
    Records,
    Ended,
}

// Where the reading stands. The first `held` bytes of the buffer of that name are those of an unfinished record.
#[derive(Clone, Copy, PartialEq, Eq)]
pub struct Reader {
    pub stage: Stage,
    pub buffered: usize,
}

// What a step found. A record lies in `held` up to an end: its client at 4, then in edition 2 its score, then its batch.
// Kept (no plainer): each caller tells the four apart, and as `Result<Option<usize>, Bad>` they are the same four arms with two wrappers more.
#[derive(Clone, Copy, PartialEq, Eq)]
pub enum Found {
    Nothing,
    Record(usize),
    BadVersion,
    BadRecord,
}

#[derive(Clone, Copy, PartialEq, Eq)]
pub struct Taken {
    pub reader: Reader,
    pub used: usize,
    pub found: Found,
}

// Before the version byte.
pub fn start() -> Reader
    ensures { result ≡ record { stage = Version; buffered = 0 } }
{
    Reader {
        stage: Stage::Version,
        buffered: 0,
    }
}

// Whether a record may not have this length.
fn bad_size(edition: Edition, size: usize) -> bool
    ensures { result ≡ bad_size edition size }
{
    match edition {
        Edition::First => (size == 0) | (32769 < size),
        Edition::Second => (size < 5) | (32773 < size),
    }
}

// How many bytes of a record are missing to the next thing to decide, of which the first `have` bytes of `held` are there.
fn bytes_wanted(edition: Edition, held: &[u8], have: usize) -> usize
    requires { (room_of edition ≤ length held.now) × (have < room_of edition) }
    ensures { (result ≡ bytes_wanted edition (take have held.now)) × (have + result ≤ room_of edition) }
{
    if have < 4 {
        return 4 - have;
    }
    let size = word::read_be32(held, 0) as usize;
    if bad_size(edition, size) {
        return 0;
    }
    let end = 4 + size;
    if have < end { end - have } else { 0 }
}

// What comes of the bytes of a record that are there, the first `have` of `held`.
fn decide(edition: Edition, held: &[u8], have: usize, used: usize) -> Taken
    requires { (room_of edition ≤ length held.now) × (have ≤ room_of edition) }
    ensures { (result ≡ after_record_bytes edition (take have held.now) used) × Lies edition result.found (length held.now) × (result.used ≡ used) }
{
    if have < 4 {
        return wait_for_more(have, used);
    }
    let size = word::read_be32(held, 0) as usize;
    if bad_size(edition, size) {
        return Taken {
            reader: Reader {
                stage: Stage::Ended,
                buffered: 0,
            },
            used,
            found: Found::BadRecord,
        };
    }
    let end = 4 + size;
    if have < end {
        return wait_for_more(have, used);
    }
    Taken {
        reader: Reader {
            stage: Stage::Records,
            buffered: 0,
        },
        used,
        found: Found::Record(end),
    }
}

// Nothing is decided yet.
fn wait_for_more(have: usize, used: usize) -> Taken
    ensures { result ≡ wait_for_more have used }
{
    Taken {
        reader: Reader {
            stage: Stage::Records,
            buffered: have,
        },
        used,
        found: Found::Nothing,
    }
}

// Input for a record, of which the first `have` bytes of `held` are there.
fn take_record(edition: Edition, have: usize, held: &mut [u8], input: &[u8]) -> Taken
    requires { (room_of edition ≤ length held.old) × (have < room_of edition) }
    ensures { (result.used ≤ length input.now) × Lies edition result.found (length held.old)
        × (0 < bytes_wanted edition (take have held.old)
        → Takes edition (record { stage = Records; buffered = have }) held.old input.now result held.new)
        × (result ≡ record_taken edition (take have held.old) input.now)
        × (held.new ≡ spliced have (kept_in edition Records (take have held.old) input.now) held.old) }
{
    let wanted = bytes_wanted(edition, held, have);
    let taken = wanted.min(input.len());
    // It never goes on at byte 0: no record is longer than `held`.
    ring::copy_in(held, have, &input[..taken]);
    decide(edition, held, have + taken, taken)
}

// So many bytes passed over.
fn nothing_taken(reader: Reader, used: usize) -> Taken
    ensures { result ≡ nothing_taken reader used }
{
    Taken {
        reader,
        used,
        found: Found::Nothing,
    }
}

// The version byte.
fn check_version(edition: Edition, version: u8) -> Taken
    ensures { result ≡ version_taken edition version }
{
    if version == edition.version() {
        return Taken {
            reader: Reader {
                stage: Stage::Records,
                buffered: 0,
            },
            used: 1,
            found: Found::Nothing,
        };
    }
    Taken {
        reader: Reader {
            stage: Stage::Ended,
            buffered: 0,
        },
        used: 1,
        found: Found::BadVersion,
    }
}

// Takes from the input at most as many bytes as are missing to the next thing to decide, and so finds one thing at most.
// Where the buffer does not suffice, nothing is used.
pub fn take(edition: Edition, reader: Reader, held: &mut [u8], input: &[u8]) -> Taken
    ensures { (result.used ≤ length input.now) × Lies edition result.found (length held.old)
        × (ReaderReady edition reader held.old → Takes edition reader held.old input.now result held.new)
        × (result ≡ taken_by edition reader held.old input.now) × (held.new ≡ held_after edition reader held.old input.now) }
{
    let have = reader.buffered;
    let room = edition.room();
    let enough = (room <= held.len()) & (have < room);
    if !enough {
        return nothing_taken(reader, 0);
    }
    match reader.stage {
        Stage::Version => match input.first() {
            None => nothing_taken(reader, 0),
            Some(version) => check_version(edition, *version),
        },
        Stage::Records => take_record(edition, have, held, input),
        Stage::Ended => nothing_taken(reader, input.len()),
    }
}
