// The pieces of a file handed to the tally, in constant memory: its records found, walked and counted. No engine is run.
#![tactic(auto)]

ghost use Rattle.std.specs.Prelude.{◌≡◌, List, ◌++◌, cond, ℕ, ◌-◌, ◌*◌, ◌≤◌, ◌<◌, length};
ghost use Rattle.ring.specs.Segment.{batch_words};
ghost use Rattle.register.specs.Bank.{reset_bank};
ghost use Rattle.task_check.specs.Faults.{fault_number};
ghost use Rattle.batch.specs.Batch.{decode_batch};
ghost use Rattle.records.specs.declared.Found.TheVariants.{Record as OneRecord};
ghost use Rattle.records.specs.Reading.{entry_in, Lies};
ghost use Rattle.totals.specs.declared.Totals.{Totals};
ghost use Rattle.tally.specs.Counts.{edition_of};
ghost use Rattle.tally.specs.Running.{plus, task_plus, ran_plus, unscored_plus, submitted_plus, record_plus, found_plus};
ghost use Rattle.tally.specs.Tally.{fed_by, held_by, Stands, TallyFeedContract};

use batch::BatchTasks;
use records::{Edition, Found};
use register::{Bank, Task};
use reset::ResetRule;
use ring::Reader;
use tally::{FeedResult, Running, Tally};
use task_check::{Bounds, Fault};

// ---- counting

// Adds to the count at a position.
fn add(running: Running, k: usize, n: u64) -> Running
    requires { k < 14 }
    ensures { result ≡ plus k n running }
{
    let mut counts = running.counts;
    let have = counts[k];
    if !totals::has_room(have, n) {
        return Running {
            fits: false,
            counts: counts,
        };
    }
    counts[k] = have + n;
    Running {
        fits: running.fits,
        counts: counts,
    }
}

fn pixels_of(width: u16, height: u16) -> u64
    ensures { result ≡ width * height }
{
    (width as u64) * (height as u64)
}

fn pixels_if(is: bool, pixels: u64) -> u64
    ensures { result ≡ cond is pixels 0 }
{
    if is { pixels } else { 0 }
}

// A task that was drawn.
fn add_task(running: Running, task: Task) -> Running
    ensures { result ≡ task_plus task running }
{
    let output = task.output;
    let blending = task.blending;
    let pixels = pixels_of(output.width, output.height);
    let blended = pixels_if(blending.on, pixels);
    let one = add(running, 1, 1);
    let two = add(one, 2, pixels);
    add(two, 3, blended)
}

// The fault that ended a batch.
fn add_fault(running: Running, fault: Fault) -> Running
    ensures { result ≡ plus (fault_number fault - 16) 1 running }
{
    let number = fault.number();
    add(running, (number - 16) as usize, 1)
}

// A batch that was run, by the registers' reset rule.
fn add_batch(running: Running, batch: &[u8], bounds: Bounds, rule: ResetRule) -> Running
    ensures { result ≡ ran_plus (decode_batch bounds (reset_bank rule) (batch_words batch.now 0 (length batch.now))) running }
{
    let whole = Reader::new(batch, 0, batch.len());
    let mut tasks = BatchTasks::new(whole, bounds, Bank::reset(rule));
    let mut so_far = add(running, 0, 1);
    while let Some(task) = tasks.next() {
        so_far = add_task(so_far, task);
    }
    // the tasks before a fault are drawn
    match tasks.fault {
        None => so_far,
        Some(found) => add_fault(so_far, found.fault),
    }
}

// A record that is submitted.
fn add_submitted(running: Running, edition: Edition, client: u32, batch: &[u8]) -> Running
    ensures { result ≡ submitted_plus edition (record { client = client; batch = batch.now }) running }
{
    let submitted = lines::acceptance::accept(client, batch);
    match submitted {
        None => running,
        Some(bounds) => add_batch(
            running,
            batch,
            bounds,
            records::editions::reset_rule_of(edition),
        ),
    }
}

// That a record of edition 1 has no score.
fn add_unscored(running: Running, edition: Edition) -> Running
    ensures { result ≡ unscored_plus edition running }
{
    match edition {
        Edition::First => add(running, 13, 1),
        Edition::Second => running,
    }
}

// The record that lies in `held` up to an end.
fn add_record(running: Running, edition: Edition, held: &[u8], end: usize) -> Running
    requires { Lies edition (OneRecord end) (length held.now) }
    ensures { result ≡ record_plus edition (entry_in held.now end) running }
{
    let begun = add_unscored(running, edition);
    if !records::editions::score_in(edition, held, end) {
        return begun;
    }
    let start = edition.batch_start();
    add_submitted(begun, edition, held[4] as u32, &held[start..end])
}

// What a step of the reading found in `held`.
fn add_found(running: Running, edition: Edition, found: Found, held: &[u8]) -> Running
    requires { Lies edition found (length held.now) }
    ensures { result ≡ found_plus edition found held.now running }
{
    match found {
        Found::Record(end) => add_record(running, edition, held, end),
        Found::Nothing => running,
        Found::BadVersion => running,
        Found::BadRecord => running,
    }
}

// ---- the file

// The edition of a file that begins so. A file of neither has no record in either.
fn edition_at(input: &[u8]) -> Edition
    ensures { result ≡ edition_of input.now }
{
    if input.len() == 0 {
        return Edition::First;
    }
    if input[0] == 2 {
        return Edition::Second;
    }
    Edition::First
}

// The edition that the reading goes on with: the file's, once its version byte has come.
fn edition_for(begun: bool, edition: Edition, input: &[u8]) -> Edition
    ensures { result ≡ cond begun edition (edition_of input.now) }
{
    if begun {
        return edition;
    }
    edition_at(input)
}

// Takes some bytes of the input, at most those of one record. `held` is to be 32,777 bytes long: where it does not suffice for the edition, nothing is used.
pub fn feed(tally: Tally, held: &mut [u8], input: &[u8]) -> FeedResult
    ensures { (result.used ≤ length input.now)
        × (result ≡ fed_by tally held.old input.now) × (held.new ≡ held_by tally held.old input.now)
        × ((totals : Totals) (seen : List ℕ) → Stands totals seen tally held.old → TallyFeedContract totals seen input.now result held.new) }
{
    if input.len() == 0 {
        return FeedResult {
            tally: tally,
            used: 0,
        };
    }
    let before = tally.before;
    let known = tally.edition;
    let edition = edition_for(tally.begun, known, input);
    let reader = tally.reader;
    let running = tally.running;
    let taken = records::take(edition, reader, held, input);
    let after = taken.reader;
    let found = taken.found;
    let next = add_found(running, edition, found, held);
    FeedResult {
        tally: Tally {
            before: before,
            edition: edition,
            begun: true,
            reader: after,
            running: next,
        },
        used: taken.used,
    }
}

// Takes a piece of the file, whole.
#[tactic(auto, using(crate::proofs::Piece::some_used))]
pub fn feed_piece(tally: Tally, held: &mut [u8], piece: &[u8]) -> Tally
    ensures { (totals : Totals) (seen : List ℕ) → Stands totals seen tally held.old → Stands totals (seen ++ piece.now) result held.new }
{
    let mut current = tally;
    let mut used = 0;
    // Kept (no plainer): a turn takes as many bytes as `feed` used, so no `for` over the piece fits
    while used < piece.len() {
        let fed = feed(current, held, &piece[used..]);
        let after = fed.tally;
        let count = fed.used;
        current = after;
        used = used + count;
        // It happens only where `held` is too short.
        if count == 0 {
            return current;
        }
    }
    current
}
