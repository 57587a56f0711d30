// A list of calls, given as bytes: the calls of a script, one at a time.
#![tactic(auto)]

ghost use Rattle.std.specs.Prelude.{◌≡◌, ℕ, List};
ghost use Rattle.model.specs.Calls.{Call};
ghost use Rattle.script.specs.Script.{parse_open, parse_bytes, parse_client, parse_begin, parse_call};
ghost use Rattle.script.specs.Parsing.{ParsesAs, client_parsed, bytes_parsed};

// A call, taken from bytes that begin with it. A batch or a piece is lent from these bytes.
#[derive(Clone, Copy)]
pub enum Request<'a> {
    Open(u32, u32),
    Submit(u32, &'a [u8]),
    Run,
    Pending(u32),
    Begin(u32, usize),
    Piece(u32, &'a [u8]),
    Cancel(u32),
    Close(u32),
}

// A call, and the bytes after it.
#[derive(Clone, Copy)]
pub struct ParsedCall<'a> {
    pub request: Request<'a>,
    pub rest: &'a [u8],
}

// Open: start and length after the opcode.
fn open_in<'a>(bytes: &'a [u8]) -> Option<ParsedCall<'a>>
    ensures { ParsesAs (parse_open bytes.now) result }
{
    if bytes.len() < 9 {
        return None;
    }
    let start = word::read_le32(bytes, 1);
    let size = word::read_le32(bytes, 5);
    Some(ParsedCall {
        request: Request::Open(start, size),
        rest: &bytes[9..],
    })
}

// A client and bytes, as submit and a piece have them: client, length and bytes after the opcode, and what follows. The length is read only where it is there.
fn bytes_in<'a>(bytes: &'a [u8]) -> Option<(u32, &'a [u8], &'a [u8])>
    ensures { (call : ℕ → List ℕ → Call) → parse_bytes call bytes.now ≡ bytes_parsed call result }
{
    if bytes.len() < 6 {
        return None;
    }
    let size = word::read_le32(bytes, 2) as usize;
    let (batch, rest) = bytes[6..].split_at_checked(size)?;
    Some((bytes[1] as u32, batch, rest))
}

// Begin: client and total length after the opcode.
fn begin_in<'a>(bytes: &'a [u8]) -> Option<ParsedCall<'a>>
    ensures { ParsesAs (parse_begin bytes.now) result }
{
    if bytes.len() < 6 {
        return None;
    }
    let total = word::read_le32(bytes, 2) as usize;
    let client = bytes[1] as u32;
    Some(ParsedCall {
        request: Request::Begin(client, total),
        rest: &bytes[6..],
    })
}

// A client alone: the client after the opcode, and what follows.
fn client_in<'a>(bytes: &'a [u8]) -> Option<(u32, &'a [u8])>
    ensures { (call : ℕ → Call) → parse_client call bytes.now ≡ client_parsed call result }
{
    if bytes.len() < 2 {
        return None;
    }
    Some((bytes[1] as u32, &bytes[2..]))
}

// The call that the bytes begin with.
pub fn next_call<'a>(bytes: &'a [u8]) -> Option<ParsedCall<'a>>
    ensures { ParsesAs (parse_call bytes.now) result }
{
    if bytes.is_empty() {
        return None;
    }
    match bytes[0] {
        0 => open_in(bytes),
        1 => {
            let (client, batch, rest) = bytes_in(bytes)?;
            let request = Request::Submit(client, batch);
            Some(ParsedCall { request, rest })
        }
        2 => Some(ParsedCall {
            request: Request::Run,
            rest: &bytes[1..],
        }),
        3 => {
            let (client, rest) = client_in(bytes)?;
            let request = Request::Pending(client);
            Some(ParsedCall { request, rest })
        }
        4 => begin_in(bytes),
        5 => {
            let (client, piece, rest) = bytes_in(bytes)?;
            let request = Request::Piece(client, piece);
            Some(ParsedCall { request, rest })
        }
        6 => {
            let (client, rest) = client_in(bytes)?;
            let request = Request::Cancel(client);
            Some(ParsedCall { request, rest })
        }
        7 => {
            let (client, rest) = client_in(bytes)?;
            let request = Request::Close(client);
            Some(ParsedCall { request, rest })
        }
        _ => None,
    }
}
