//! Answers, as they are printed.

use sandbox_states::{Answer, Verdict};
use std::io;

/// Prints bytes in hexadecimal.
fn print_bytes(rt: &(impl Print + AllocGlobal), bytes: &[u8]) -> io::Result<()> {
    if bytes.is_empty() {
        return print!(rt; "-");
    }
    let spelling = hex::encode(rt.alloc(), bytes)?;
    print!(rt; "{spelling}")
}

/// Prints what became of a request.
fn print_verdict(rt: &(impl Print + AllocGlobal), verdict: &Verdict) -> io::Result<()> {
    match verdict {
        Verdict::Replied(reply) => {
            print!(rt; "replied ")?;
            print_bytes(rt, reply.bytes())
        }
        Verdict::Exit { code, reply } => {
            print!(rt; "exit {code} ")?;
            print_bytes(rt, reply.bytes())
        }
        Verdict::Trap(trap) => {
            let text = trap.text();
            print!(rt; "trap: {text}")
        }
        Verdict::Spent => print!(rt; "spent"),
    }
}

/// Prints an answer.
pub fn print_answer(rt: &(impl Print + AllocGlobal), answer: &Answer) -> io::Result<()> {
    print_verdict(rt, answer.verdict())?;
    let (units, turns) = (answer.units(), answer.turns());
    println!(rt; ", units {units}, turns {turns}")
}

/// Prints how many answers there are, and each of them.
pub fn print_answers(rt: &(impl Print + AllocGlobal), answers: &[Answer]) -> io::Result<()> {
    let count = answers.len();
    println!(rt; "answers {count}")?;
    for answer in answers {
        print_answer(rt, answer)?;
    }
    Ok(())
}
