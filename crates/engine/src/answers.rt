// What the calls answer, as six words: for callers that are not Rattle.
ghost use Rattle.std.specs.Prelude.{◌≡◌};
ghost use Rattle.queue.specs.Answers.{refusal_number_of, value_of};
ghost use Rattle.engine.specs.Answers.{short_answer, piece_words, run_words, OutcomeFitsWords};

use crate::Completion;
use queue::{Answer, Refusal};

// The words of a piece: 1 with the last one.
pub fn piece_words(answer: Result<Answer, Refusal>) -> [u32; 6]
    ensures { result ≡ piece_words answer }
{
    match answer {
        Err(refused) => [refused.number(), 0, 0, 0, 0, 0],
        Ok(Answer::Done) => [0, 0, 0, 0, 0, 0],
        Ok(Answer::Opened(client)) => [0, 0, client, 0, 0, 0],
        Ok(Answer::Accepted(ticket)) => [0, 1, ticket, 0, 0, 0],
        Ok(Answer::Ready(count)) => [0, 0, count, 0, 0, 0],
        Ok(Answer::Missing(bytes)) => [0, 0, bytes, 0, 0, 0],
    }
}

// The words of set up, open, submit, begin, cancel and pending: those of a piece, without whether it is the last.
pub fn answer_words(answer: Result<Answer, Refusal>) -> [u32; 6]
    ensures { result ≡ short_answer (refusal_number_of answer) (value_of answer) }
{
    let words = piece_words(answer);
    [words[0], words[2], 0, 0, 0, 0]
}

// The words of run.
pub fn run_words(outcome: Result<Completion, Refusal>) -> [u32; 6]
    requires { OutcomeFitsWords outcome }
    ensures { result ≡ run_words outcome }
{
    match outcome {
        Err(refusal) => [refusal.number(), 0, 0, 0, 0, 0],
        Ok(done) => {
            let verdict = done.verdict;
            let offset = verdict.offset() as u32;
            [
                0,
                done.client,
                done.ticket,
                verdict.status(),
                verdict.number(),
                offset,
            ]
        }
    }
}
