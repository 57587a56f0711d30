// Batches: groups of register words, read a task at a time and judged.
ghost use Rattle.std.specs.Prelude.{◌≡◌, ◌*◌, ◌≤◌, ◌<◌, length, get_or};
ghost use Rattle.register.specs.Task.{task_of};
ghost use Rattle.task_check.specs.Rules.{check_task};
ghost use Rattle.batch.specs.Batch.{reserved_bits, decode_batch, validation_of};
ghost use Rattle.batch.specs.Walk.{words_in, stopped, step_after_check, step_at};

use crate::{BatchTasks, FaultAt, Stop, TaskRead, Validation, Verdict};
use register::Bank;
use ring::Reader;
use task_check::{Bounds, Fault, check_task};
use word::bits;

// Word k of a batch, 0 past its end.
#[tactic(auto, using(crate::proofs::DecoderCases::word_or_zero))]
pub fn word_at(batch: Reader, k: usize) -> u32
    ensures { result ≡ get_or (words_in batch.entry) k 0 }
{
    batch.word(k).unwrap_or(0)
}

// Header bit 1, 16 or 17 is set.
fn reserved_bits(header: u32) -> bool
    ensures { result ≡ reserved_bits header }
{
    (bits(header, 1, 1) == 1) | (bits(header, 16, 16) == 1) | (bits(header, 17, 17) == 1)
}

// A fault at word k.
fn stop(fault: Fault, k: usize, bank: Bank) -> Stop
    requires { 4 * k ≤ 18446744073709551615 }
    ensures { result ≡ stopped fault (4 * k) bank }
{
    let offset = 4 * k;
    Stop {
        fault: FaultAt { fault, offset },
        bank,
    }
}

// The group at word `head` ends a task, and word `next` follows: the task is judged.
fn judged(bounds: Bounds, bank: Bank, next: usize, head: usize) -> Result<Option<TaskRead>, Stop>
    requires { 4 * head ≤ 18446744073709551615 }
    ensures { result ≡ step_after_check (check_task bounds (task_of bank)) bank next (4 * head) }
{
    let task = bank.task();
    check_task(bounds, task).map_err(|fault| stop(fault, head, bank))?;
    Ok(Some(TaskRead { task, bank, next }))
}

// The step that begins with the header at word k.
// Kept (no plainer): a turn takes a group, whose length its own header says, so neither a range nor an iterator over words fits.
fn step(batch: Reader, bounds: Bounds, bank: Bank, k: usize) -> Result<Option<TaskRead>, Stop>
    requires { k < length (words_in batch) }
    ensures { result ≡ step_at bounds (words_in batch.entry) bank k }
{
    let n = batch.word_count();
    let mut head = k;
    let mut held = bank;
    'groups: loop {
        let h = word_at(batch, head);
        if reserved_bits(h) {
            break 'groups Err(stop(Fault::ReservedBits, head, held));
        }
        let first = head + 1;
        let count = (h / 4 % 16384) as usize; // bits 15:2
        if (count == 0) | (n - first < count) {
            break 'groups Err(stop(Fault::GroupLength, head, held));
        }
        let register = h / 65536 % 65536; // bits 31:16
        for i in 0..count {
            let at = first + i;
            match held.write(register + 4 * (i as u32), word_at(batch, at)) {
                Ok(next) => held = next,
                Err(fault) => break 'groups Err(stop(fault.into(), at, held)),
            }
        }
        let after = first + count;
        if h % 2 == 1 {
            break 'groups judged(bounds, held, after, head);
        }
        if n <= after {
            break 'groups Err(stop(Fault::OpenTask, head, held));
        }
        head = after;
    }
}

// The next step of a batch, from word k on, where a task may begin: a task, a fault, or the batch's end.
pub fn next_task(
    batch: Reader,
    bounds: Bounds,
    bank: Bank,
    k: usize,
) -> Result<Option<TaskRead>, Stop>
    ensures { result ≡ step_at bounds (words_in batch.entry) bank k }
{
    if k < batch.word_count() {
        step(batch, bounds, bank, k)
    } else {
        Ok(None)
    }
}

// Judges a batch, read from a bank on. What does not lie in the ring has no words.
pub fn validate(batch: Reader, bounds: Bounds, bank: Bank) -> Validation
    ensures { result ≡ validation_of (decode_batch bounds bank (words_in batch.entry)) }
{
    let mut tasks = BatchTasks::new(batch, bounds, bank);
    while let Some(_) = tasks.next() {}
    Validation {
        verdict: Verdict {
            tasks: tasks.count,
            fault: tasks.fault,
        },
        bank: tasks.bank,
    }
}
