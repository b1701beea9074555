//! Tells how many pieces and comments the C source on the standard input has.
#![tactic(auto)]

use cx_lex::{LexFault, Lexed, lex};
use std::io::{self, Read};
use std::process::ExitCode;

/// The greatest length of a source, in bytes.
const LONGEST: usize = 4_000_000;

fn tell(rt: &HostRuntime, answer: &Result<Lexed, LexFault>) -> io::Result<()> {
    match answer {
        Ok(lexed) => {
            let pieces = lexed.pieces.len();
            let comments = lexed.comments.len();
            println!(rt; "{pieces} pieces, {comments} comments")
        }
        Err(LexFault::UnclosedComment { at }) => {
            println!(rt; "{}:{}: a comment has no end", at.line, at.column)
        }
        Err(LexFault::TooLong { at }) => println!(rt; "{}:{}: too many pieces", at.line, at.column),
        Err(LexFault::NoMemory) => println!(rt; "memory ran out"),
    }
}

fn run(rt: &HostRuntime) -> io::Result<()> {
    let alloc = rt.alloc();
    let mut source = Vec::new(alloc);
    let mut input = rt.stdin();
    input.read_to_end(&mut source)?;
    if source.len() > LONGEST {
        return println!(rt; "the source is longer than 4000000 bytes");
    }
    tell(rt, &lex(alloc, &source, 0))
}

fn main(rt: HostRuntime) -> ExitCode {
    match run(&rt) {
        Ok(()) => ExitCode::SUCCESS,
        Err(_) => ExitCode::FAILURE,
    }
}
