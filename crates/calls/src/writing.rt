// The results of a call written out: what it answered in numbers, and the record after it as bytes.
ghost use Rattle.std.specs.Prelude.{◌≡◌, ◌≤◌, take, drop, get_or};
ghost use Rattle.queue.specs.Calls.{unless_refused};
ghost use Rattle.record_bytes.specs.Written.{written};

use engine_record::EngineRecord;

// Writes the numbers that a call answered, as many of its words as there are places for, and the record after it if it was not refused. The first
// word, which it returns, is the refusal's number: 0 without one.
pub fn write_answer<const N: usize>(
    bytes: &mut [u8],
    words: [u32; 6],
    engine: EngineRecord,
    numbers: &mut [u32; N],
) -> u32
    requires { N ≤ 5 }
    ensures { (result ≡ get_or words 0 0)
        × (numbers.new ≡ take N (drop 1 words))
        × (bytes.new ≡ unless_refused (get_or words 0 0) bytes.old (written engine bytes.old)) }
{
    numbers.copy_from_slice(&words[1..1 + N]);
    if words[0] == 0 {
        record_bytes::writing::encode(engine, bytes);
    }
    words[0]
}
