// The reset rule: what register 0x090, blending, holds at the start of every batch. It is chosen once, at set up.
#![tactic(auto)]

ghost use Rattle.std.specs.Prelude.{◌≡◌};
ghost use Rattle.reset.specs.Reset.{blending_at_reset, reset_number_of, is_rule_number, rule_of};

#[derive(Clone, Copy, Debug, PartialEq, Eq)]
pub enum ResetRule {
    // blending off, the factors those of NONE
    Unblended,
    // SRC_OVER, blending on
    SrcOver,
}

impl ResetRule {
    pub const UNBLENDED: u32 = 0x00001300;

    pub const SRC_OVER: u32 = 0x00000B01;

    // What register 0x090 is reset to.
    pub fn blending(self) -> u32
        ensures { result ≡ blending_at_reset self }
    {
        match self {
            ResetRule::Unblended => Self::UNBLENDED,
            ResetRule::SrcOver => Self::SRC_OVER,
        }
    }

    // Whether a number is a rule's own.
    pub fn is_number(number: u32) -> bool
        ensures { result ≡ is_rule_number number }
    {
        matches!(number, 0 | 1)
    }
}

// The rule of any number: 0 is the old one, every other the new one.
impl From<u32> for ResetRule {
    ghost from_gives = { λ number rule. rule ≡ rule_of number };

    fn from(number: u32) -> Self {
        if number == 0 {
            ResetRule::Unblended
        } else {
            ResetRule::SrcOver
        }
    }
}

// The rule's own number.
impl From<ResetRule> for u32 {
    ghost from_gives = { λ rule number. number ≡ reset_number_of rule };

    fn from(rule: ResetRule) -> u32 {
        rule as u32
    }
}
