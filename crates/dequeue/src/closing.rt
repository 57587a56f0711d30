// Close: a client's window filled with zeros, its id and its window free. It has no `requires`: any record and memory may be handed in.
ghost use Rattle.std.specs.Prelude.{◌≡◌, length};
ghost use Rattle.queue.specs.Calls.{close_result};
ghost use Rattle.engine.specs.Close.{close_memory};

use engine_record::EngineRecord;
use queue::{Answer, Reply};

// Closes a client: its window is filled with zeros, and its id and window are free. Either engine closes so: nothing is drawn.
pub fn close(engine: EngineRecord, memory: &mut [u8], client: u32) -> Reply
    ensures { (result ≡ close_result engine (length memory.old) client)
        × (memory.new ≡ close_memory engine memory.old client) }
{
    if let Err(refusal) = queue::clients::close_refusal(&engine, memory.len(), client) {
        return Reply {
            answer: Err(refusal),
            engine: engine,
        };
    }
    let clients = engine.clients;
    let window = queue::clients::window_of(clients, client);
    let start = window.start;
    let end = window.end;
    let size = end - start;
    lanes::bytes::clear(&mut memory[start..end], 0, size);
    Reply {
        answer: Ok(Answer::Done),
        engine: queue::clients::without_client(engine, client),
    }
}
