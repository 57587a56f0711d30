// Why the batch of a replay with a ticket faulted: `fault FILE TICKET`.
#![tactic(auto)]

use inquiry::Question;
use std::rt::Env;

// The ticket that the arguments name. What is wrong with them is reported.
fn ticket_argument(rt: &(impl Env + Eprint)) -> Option<u32> {
    if command::argument_count(rt) != 3 {
        command::complain(rt, b"fault", b" takes two arguments\n");
        return None;
    }
    let mut text = command::buffer();
    command::number_in(rt, command::argument(rt, 2, &mut text), b"TICKET")
}

// How to give the arguments.
fn usage(rt: &impl Eprint) {
    command::complain(rt, b"usage: fault FILE TICKET\n", b"TICKET in decimal\n");
}

fn main(rt: HostRuntime) {
    let Some(ticket) = ticket_argument(&rt) else {
        usage(&rt);
        return;
    };
    let question = Question { address: 0, ticket };
    let Ok(inquiry) = inquiry_io::ask(&rt, question) else {
        return;
    };
    let mut line = [0u8; 128];
    inquiry_io::print_fault(
        &rt,
        &mut line,
        inquiry::answers::why_faulted(question, inquiry),
    );
}
