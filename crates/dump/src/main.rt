//! Prints what the layers of the reviewer make of standard input, for tests and benchmarks.
//!
//! `tokens` prints the tokens of a Python text, one a line, and `count` only how many there are. A text without tokens gives the
//! line `fault KIND LINE:COL` and status 1. `script` reads a script in the pieces in which it comes, and prints how many commands it
//! has; where none begins it gives the line `malformed PLACE` and status 1. `expression` prints the tree of the expression with which a
//! Python text begins, and where that isn't the whole first line `rest LINE:COL` and status 1. `trees` prints the tree of a Python file, and
//! `scopes` the names that each of its functions owns; a fault is a line `fault KIND LINE:COL` and status 1. `models` reads a model file, asks what
//! it declares of each of its names, and prints how many models, names, leaves and notes there are. `chain N`, `diamond N` and `loop N` read nothing, solve
//! a system of rows of that shape and about that many rows, and print how many of its nodes a source reaches. Other words give the
//! usage line and status 2.
//!
//! * `commands`, `tokens`, `scopes`, `models`, `systems`: what these words print; `trees`, `statements`: the lines of trees;
//! * `reading`: the tree of a file or of an expression, or its fault.
#![tactic(auto)]

ghost use Rattle.std.specs.Prelude.{◌≤◌, ◌<◌, ◌^◌, length, IfSome};

mod commands;
mod models;
mod reading;
mod scopes;
mod statements;
mod systems;
mod tokens;
mod trees;

use commands::{Uncounted, count_commands};
use models::{Undeclared, count_declared};
use py_lexer::{LexError, lex};
use reading::{print_expression, print_trees};
use rv_io::StdSource;
use scopes::print_scopes;
use std::env;
use std::io::{self, BufWriter, Read, Write};
use std::process::ExitCode;
use systems::{Shape, count_reached};

/// The greatest number of bytes that are read.
const LONGEST_TEXT: usize = (1 << 31) - 1;

/// The greatest number of rows that are made.
const MOST_ROWS: u32 = 10_000_000;

/// What is done with the input.
#[derive(Clone, Copy, Debug, PartialEq, Eq)]
enum Word {
    Tokens,
    Count,
    Script,
    Expression,
    Trees,
    Scopes,
    Models,
}

/// The word that the program is called with, if it is one of its words, and alone.
fn word_of(words: &[String]) -> Option<Word> {
    match words {
        [word] => match word.as_str() {
            "tokens" => Some(Word::Tokens),
            "count" => Some(Word::Count),
            "script" => Some(Word::Script),
            "expression" => Some(Word::Expression),
            "trees" => Some(Word::Trees),
            "scopes" => Some(Word::Scopes),
            "models" => Some(Word::Models),
            _ => None,
        },
        _ => None,
    }
}

/// The shape of the rows that the program is called to solve, and about how many there are.
fn system_of(words: &[String]) -> Option<(Shape, u32)>
    ensures { IfSome result (λ system. system.1 ≤ 10000000) }
{
    let [word, number] = words else {
        return None;
    };
    let shape = match word.as_str() {
        "chain" => Shape::Chain,
        "diamond" => Shape::Diamond,
        "loop" => Shape::Loop,
        _ => return None,
    };
    let size: u32 = number.parse().ok()?;
    if size > MOST_ROWS {
        return None;
    }
    Some((shape, size))
}

/// Prints how many nodes of a system a source reaches.
fn solve_system(rt: &HostRuntime, shape: Shape, size: u32) -> Result<ExitCode, io::Error>
    requires { size ≤ 10000000 }
{
    match count_reached(rt.alloc(), shape, size) {
        Ok(count) => {
            println!(rt; "reached {count}")?;
            Ok(ExitCode::from(0))
        }
        Err(_) => {
            println!(rt; "out of memory")?;
            Ok(ExitCode::from(3))
        }
    }
}

/// Prints the number of a script's commands.
fn count_script(rt: &HostRuntime) -> Result<ExitCode, io::Error> {
    let mut source = StdSource::new(rt.stdin());
    match count_commands(rt.alloc(), &mut source) {
        Ok(count) => {
            println!(rt; "commands {count}")?;
            Ok(ExitCode::from(0))
        }
        Err(Uncounted::Malformed { at }) => {
            println!(rt; "malformed {at}")?;
            Ok(ExitCode::from(1))
        }
        Err(Uncounted::Unread) => {
            println!(rt; "unread")?;
            Ok(ExitCode::from(2))
        }
        Err(Uncounted::Memory) => {
            println!(rt; "out of memory")?;
            Ok(ExitCode::from(3))
        }
    }
}

/// Prints the tokens of a text, or how many there are.
fn lex_text(rt: &HostRuntime, word: Word, text: &str) -> Result<ExitCode, io::Error>
    requires { length text.now < 2 ^ 31 }
{
    match lex(rt.alloc(), text) {
        Ok(all) => {
            if word == Word::Count {
                println!(rt; "tokens {}", all.len())?;
            } else {
                let mut out = BufWriter::new(rt.alloc(), io::writer(rt))?;
                tokens::write_all(&mut out, &all)?;
                out.flush()?;
            }
            Ok(ExitCode::from(0))
        }
        Err(LexError::Fault { kind, at }) => {
            println!(rt; "fault {kind} {}:{}", at.line, at.col)?;
            Ok(ExitCode::from(1))
        }
        Err(LexError::Memory) => {
            println!(rt; "out of memory")?;
            Ok(ExitCode::from(3))
        }
    }
}

/// Prints what a model file declares.
fn read_declared(rt: &HostRuntime, text: &str) -> Result<ExitCode, io::Error>
    requires { length text.now < 2 ^ 31 }
{
    match count_declared(rt.alloc(), text) {
        Ok(counts) => {
            print!(rt; "models {} found {} ", counts.models, counts.asked)?;
            println!(rt; "leaves {} notes {}", counts.leaves, counts.notes)?;
            Ok(ExitCode::from(0))
        }
        Err(Undeclared::Refused) => {
            println!(rt; "refused")?;
            Ok(ExitCode::from(1))
        }
        Err(Undeclared::Memory) => {
            println!(rt; "out of memory")?;
            Ok(ExitCode::from(3))
        }
    }
}

/// Answers a word over the text of standard input.
fn answer_text(rt: &HostRuntime, word: Word) -> Result<ExitCode, io::Error> {
    let text = io::read_to_string(rt.alloc(), rt.reader())?;
    if text.len() > LONGEST_TEXT {
        println!(rt; "too long")?;
        return Ok(ExitCode::from(2));
    }
    match word {
        Word::Models => read_declared(rt, text.as_str()),
        Word::Expression => print_expression(rt, text.as_str()),
        Word::Trees => print_trees(rt, text.as_str()),
        Word::Scopes => print_scopes(rt, text.as_str()),
        _ => lex_text(rt, word, text.as_str()),
    }
}

fn main(rt: HostRuntime) -> Result<ExitCode, io::Error> {
    let words = env::args(&rt)?.skip(1).collect::<Vec<String>>(rt.alloc())?;
    if let Some((shape, size)) = system_of(&words) {
        return solve_system(&rt, shape, size);
    }
    let Some(word) = word_of(&words) else {
        println!(rt;
            "usage: dump tokens | count | expression | trees | scopes | models | script | chain N | diamond N | loop N"
        )?;
        return Ok(ExitCode::from(2));
    };
    match word {
        Word::Script => count_script(&rt),
        _ => answer_text(&rt, word),
    }
}
