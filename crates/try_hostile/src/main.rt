//! What scripts try many times, each by a word: `bodies` judges bodies from outside, `growths` makes calls again whose growth was
//! refused, `parts` passes parts through a queue between many threads. Without a word it does the last two, and then the first.
#![tactic(auto)]

mod bodies;
mod growths;
mod parts;

use crate::bodies::tell_bodies;
use crate::growths::make_calls;
use crate::parts::pass_parts;
use std::alloc::Global;
use std::rt::Env;
use std::{env, io};

/// What is tried.
#[derive(Clone, Copy)]
enum Trial {
    Bodies,
    Growths,
    Parts,
    All,
}

/// What the first word behind the program's name asks for.
fn trial_asked<T: Env + Alloc<A = Global>>(rt: &T) -> io::Result<Trial> {
    let mut words = env::args(rt)?;
    let _program = words.next();
    let Some(word) = words.next() else {
        return Ok(Trial::All);
    };
    match word.as_str() {
        "bodies" => Ok(Trial::Bodies),
        "growths" => Ok(Trial::Growths),
        "parts" => Ok(Trial::Parts),
        _ => Ok(Trial::All),
    }
}

fn main(rt: HostRuntime) -> io::Result<()> {
    // memory for the words may be the one growth that is refused
    let trial = match trial_asked(&rt) {
        Ok(trial) => trial,
        Err(_) => trial_asked(&rt)?,
    };
    if matches!(trial, Trial::Growths | Trial::All) {
        make_calls(&rt, rt.alloc())?;
    }
    if matches!(trial, Trial::Parts | Trial::All) {
        pass_parts(&rt, rt.alloc())?;
    }
    if matches!(trial, Trial::Bodies | Trial::All) {
        let text = io::read_to_string(rt.alloc(), rt.stdin())?;
        tell_bodies(&rt, rt.alloc(), &text)?;
    }
    Ok(())
}
