//! Runs a script of lines on standard input, and writes the reply to each on standard output; or checks a database, and writes what it has.
#![tactic(auto)]

ghost use Rattle.std.specs.Prelude.{◌≡◌, drop, map, IfOk, string_bytes};
ghost use Rattle.std_alloc.specs.Vec.Iter.{into_iter_items};

#[cfg(test)]
mod tests;
mod top;

use disk_face::Word;
use disk_real::{FileDisk, NumberSalts, StdSink, StdSource};
use std::alloc::{AllocError, Global};
use std::env::{Args, Env};
use std::hash::{BuildHasher, RandomState};
use std::io::ErrorKind;
use std::process::ExitCode;
use std::random::RandomSource;
use std::{env, io};
use top::top;

fn main(rt: HostRuntime) -> ExitCode {
    let alloc = rt.alloc();
    let Ok(words) = given_words(&rt, alloc) else {
        return ExitCode::from(7);
    };
    let mut disk = FileDisk::new(&rt, alloc);
    let mut source = StdSource::new(&rt);
    let mut sink = StdSink::new(&rt);
    let mut salts = NumberSalts::new(first_salt(&rt));
    ExitCode::from(top(alloc, &words, &mut disk, &mut source, &mut sink, &mut salts))
}

/// The words of the command line after the program's name. Words that aren't UTF-8 ask for nothing that there is, and none
/// are given for them. The error is want of memory.
fn given_words(rt: &(impl Env + Alloc<A = Global>), alloc: Global) -> io::Result<Vec<Word>> {
    match env::args(rt) {
        Ok(args) => Ok(words_of(alloc, args)?),
        Err(error) if error.kind() == ErrorKind::InvalidData => Ok(Vec::new(alloc)),
        Err(error) => Err(error),
    }
}

/// The words after the first argument, which is the program's name. The error is want of memory.
fn words_of(alloc: Global, mut args: Args) -> Result<Vec<Word>, AllocError>
    ensures { IfOk result (λ words. words.items ≡ map string_bytes (drop 1 (into_iter_items args))) }
{
    args.next();
    let mut words = Vec::new(alloc);
    for arg in args {
        words.push(Word::of(alloc, arg.as_bytes())?)?;
    }
    Ok(words)
}

/// A number that nobody can guess, or 0 where the runtime can't give one.
fn first_salt(rt: &impl RandomSource) -> u64 {
    match RandomState::new(rt) {
        Ok(state) => state.hash_one(&0u8),
        Err(_) => 0,
    }
}
