// What the editions of a replay file ask of the engine: the reset rule, and a score that is looked at before a record is submitted.
ghost use Rattle.std.specs.Prelude.{◌≡◌};
ghost use Rattle.records.specs.Editions.{reset_rule_of, score_in};

use crate::Edition;
use reset::ResetRule;

// The reset rule of an edition's engine.
pub fn reset_rule_of(edition: Edition) -> ResetRule
    ensures { result ≡ reset_rule_of edition }
{
    match edition {
        Edition::First => ResetRule::Unblended,
        Edition::Second => ResetRule::SrcOver,
    }
}

// Whether the score of a record holds, which lies in `held` up to an end; a record of edition 1 has none to be bad.
pub fn score_in(edition: Edition, held: &[u8], end: usize) -> bool
    ensures { result ≡ score_in edition held.now end }
{
    match edition {
        Edition::First => true,
        Edition::Second => {
            (9..=held.len()).contains(&end) && score::bits::is_score_word(word::read_be32(held, 5))
        }
    }
}
