// Why a batch faulted: the word at the fault's place, and for 24 its register.
ghost use Rattle.std.specs.Prelude.{◌≡◌, cond, ◌+◌, ◌*◌, ◌≤◌};
ghost use Rattle.records.specs.declared.Edition.TheVariants.{First};
ghost use Rattle.lines.specs.Lines.{file_reset};
ghost use Rattle.batch.specs.Batch.{decode_batch};
ghost use Rattle.batch.specs.Walk.{words_in};
ghost use Rattle.provenance.specs.Faulted.{group_after, register_at, held_surface, held_steps, held_in, detail_of, explained};

use crate::{Explanation, Group, HeldRegister};
use batch::decode::{validate, word_at};
use pixel::gradient::Steps;
use register::{Bank, SurfaceRegisters};
use reset::ResetRule;
use ring::Reader;
use task_check::{Bounds, Fault};

// A group after one more word: a header if none was to come.
fn onward(group: Group, word: u32) -> Group
    requires { group.register + 4 * group.left ≤ 131072 }
    ensures { (result ≡ group_after group word) × (result.register + 4 * result.left ≤ 131072) }
{
    if group.left == 0 {
        return Group {
            left: word / 4 % 16384, // bits 15:2
            register: word / 65536 % 65536, // bits 31:16
        };
    }
    Group {
        left: group.left - 1,
        register: group.register + 4,
    }
}

// The offset of the register that word k is for, 0 for a header and past the end.
fn register_at(batch: Reader, k: usize) -> u32
    ensures { result ≡ register_at (words_in batch.entry) k }
{
    if batch.word_count() <= k {
        return 0;
    }
    let mut group = Group {
        left: 0,
        register: 0,
    };
    for at in 0..k {
        group = onward(group, word_at(batch, at));
    }
    if group.left == 0 { 0 } else { group.register }
}

// What the register at an offset holds, if it is one of these, of which the first stands at `base`.
#[tactic(auto, unfolding(crate::specs::Faulted::held_surface))]
fn held_surface(s: SurfaceRegisters, base: u32, offset: u32, otherwise: u32) -> u32
    requires { base ≤ 0x100 }
    ensures { result ≡ held_surface base s offset otherwise }
{
    match offset.wrapping_sub(base) {
        0x0 => s.control,
        0x4 => s.size,
        0x8 => s.stride,
        0x10 => s.address,
        _ => otherwise,
    }
}

// What the register at an offset holds, if it is one of the steps.
#[tactic(auto, unfolding(crate::specs::Faulted::held_steps))]
fn held_steps(s: Steps, offset: u32, otherwise: u32) -> u32
    ensures { result ≡ held_steps s offset otherwise }
{
    match offset {
        0x030 => s.alpha,
        0x034 => s.red,
        0x038 => s.green,
        0x03C => s.blue,
        _ => otherwise,
    }
}

// What the register at an offset holds, 0 where none stands.
#[tactic(auto, unfolding(crate::specs::Faulted::held_in))]
fn held_in(bank: Bank, offset: u32) -> u32
    ensures { result ≡ held_in bank offset }
{
    let blending = if offset == 0x090 { bank.blending } else { 0 };
    let steps = held_steps(bank.steps, offset, blending);
    let colour = if offset == 0x01C { bank.colour } else { steps };
    let outputs = held_surface(bank.output, 0x100, offset, colour);
    let destinations = held_surface(bank.destination, 0x050, offset, outputs);
    held_surface(bank.source, 0x010, offset, destinations)
}

// For 24 the register and what it held; for the other faults nothing more is answered.
fn detail_of(fault: Fault, register: u32, bank: Bank) -> Option<HeldRegister>
    ensures { result ≡ detail_of fault register bank }
{
    match fault {
        Fault::Forbidden => Some(HeldRegister {
            offset: register,
            held: held_in(bank, register),
        }),
        _ => None,
    }
}

// Why a batch is faulty, if it is.
pub fn explain(batch: Reader, bounds: Bounds) -> Option<Explanation>
    ensures { result ≡ explained (words_in batch.entry) (decode_batch bounds (file_reset First) (words_in batch.entry)) }
{
    let judged = validate(batch, bounds, Bank::reset(ResetRule::Unblended));
    match judged.verdict.fault {
        None => None,
        Some(found) => {
            let k = found.offset / 4;
            let register = register_at(batch, k);
            Some(Explanation {
                fault: found.fault,
                place: found.offset,
                word: word_at(batch, k),
                detail: detail_of(found.fault, register, judged.bank),
            })
        }
    }
}
