// How a blending rule is computed for rows of ARGB8888 pixels, found once a task.
#![tactic(auto)]

pub mod channels;

ghost use Rattle.std.specs.Prelude.{◌≡◌, ◌&&◌, ◌≤◌};
ghost use Rattle.plan.specs.Plan.{masks_of, factor_by, at_source_alpha, is_at, ends, is_constant};

use pixel::{BlendFactors, Factor};

// A factor without a branch: all or nothing of each alpha, and then as it is or taken from 255.
#[derive(Clone, Copy)]
pub struct Masks {
    pub source: u16,
    pub destination: u16,
    pub flip: u16,
}

// A rule with what is found of it. A plan of any rule says the truth of that rule.
#[derive(Clone, Copy)]
pub struct Plan {
    pub rule: BlendFactors,
    pub source: Masks,
    pub destination: Masks,
    // it is SRC_OVER
    pub over: bool,
    // neither factor goes by alpha: CLEAR, SRC, DST, ADD
    pub constant: bool,
    // where all source alphas are 255 it copies the source; where all are 0 it leaves the destination
    pub copies: bool,
    pub leaves: bool,
    pub ghost source_masks: { source ≡ masks_of rule.source },
    pub ghost destination_masks: { destination ≡ masks_of rule.destination },
    pub ghost over_is: { over ≡ (ends rule.source 255 255 && ends rule.destination 0 255) },
    pub ghost constant_is: { constant ≡ (is_constant rule.source && is_constant rule.destination) },
    pub ghost copies_is: { copies ≡ (is_at rule.source 255 255 && is_at rule.destination 255 0) },
    pub ghost leaves_is: { leaves ≡ (is_at rule.source 0 0 && is_at rule.destination 0 255) },
}

fn masks_of(f: Factor) -> Masks
    ensures { result ≡ masks_of f }
{
    match f {
        Factor::Zero => Masks {
            source: 0,
            destination: 0,
            flip: 0,
        },
        Factor::One => Masks {
            source: 0,
            destination: 0,
            flip: 255,
        },
        Factor::SourceAlpha => Masks {
            source: 255,
            destination: 0,
            flip: 0,
        },
        Factor::InverseSourceAlpha => Masks {
            source: 255,
            destination: 0,
            flip: 255,
        },
        Factor::DestinationAlpha => Masks {
            source: 0,
            destination: 255,
            flip: 0,
        },
        Factor::InverseDestinationAlpha => Masks {
            source: 0,
            destination: 255,
            flip: 255,
        },
    }
}

pub fn factor(m: Masks, s: u16, d: u16) -> u16
    ensures { result ≡ factor_by m s d }
{
    ((s & m.source) ^ (d & m.destination)) ^ m.flip
}

// A factor where the source alpha is a; none where that is not all that counts.
fn at_source_alpha(f: Factor, a: u16) -> Option<u16>
    requires { a ≤ 255 }
    ensures { result ≡ at_source_alpha f a }
{
    match f {
        Factor::Zero => Some(0),
        Factor::One => Some(255),
        Factor::SourceAlpha => Some(a),
        Factor::InverseSourceAlpha => Some(255 - a),
        Factor::DestinationAlpha | Factor::InverseDestinationAlpha => None,
    }
}

// Whether it is v there.
fn is_at(f: Factor, a: u16, v: u16) -> bool
    requires { a ≤ 255 }
    ensures { result ≡ is_at f a v }
{
    match at_source_alpha(f, a) {
        Some(w) => w == v,
        None => false,
    }
}

fn has_ends(f: Factor, at_full: u16, at_empty: u16) -> bool
    ensures { result ≡ ends f at_full at_empty }
{
    is_at(f, 255, at_full) & is_at(f, 0, at_empty)
}

fn is_constant(f: Factor) -> bool
    ensures { result ≡ is_constant f }
{
    matches!(f, Factor::Zero | Factor::One)
}

pub fn plan_of(rule: BlendFactors) -> Plan
    ensures { result.rule ≡ rule }
{
    let s = rule.source;
    let d = rule.destination;
    Plan {
        rule,
        source: masks_of(s),
        destination: masks_of(d),
        over: has_ends(s, 255, 255) & has_ends(d, 0, 255),
        constant: is_constant(s) & is_constant(d),
        copies: is_at(s, 255, 255) & is_at(d, 255, 0),
        leaves: is_at(s, 0, 0) & is_at(d, 0, 255),
    }
}
