// One automaton on standard input, its verdict as one line on standard output.
#![tactic(auto)]

mod line;

ghost use Rattle.std.specs.Prelude.{◌≡◌, IfOk, IfSome, OnOk, [], take};
ghost use Rattle.std.specs.Io.KnownBytes.{Appends};
ghost use Rattle.search.specs.Answers.{search_findings};
ghost use Rattle.robustness.specs.Lines.{line_of, numbered};

use crate::line::line_of;
use arrayvec::ArrayVec;
use automata::refusals::Refusal;
use search::search;
use std::io;
use std::io::{Read, Write};

// How many bytes of the input count: one more than an automaton has.
const FRONT: usize = 21260;

// The bytes of the input that count: the first 21,260, or all where there are fewer. They are read into a place that is lent: given back by value
// they took 20 KiB of stack, a copy and a clearing more.
fn read_front<R: Read>(input: &mut R, bytes: &mut ArrayVec<u8, FRONT>) -> io::Result<()>
    requires { bytes.old.items ≡ [] }
    ensures { IfSome (R.remaining input.old) (λ all. IfOk result (λ _. bytes.new.items ≡ take 21260 all)) }
{
    io::copy(&mut input.take(FRONT as u64), bytes)?;
    Ok(())
}

// Writes the line of what is found of an automaton with a store of 16,384 numbers.
fn answer<R: Read, W: Write>(input: &mut R, output: &mut W) -> io::Result<()>
    ensures { IfSome (R.remaining input.old) (λ all. OnOk result
        (Appends (W.contents output.old) (W.contents output.new) (line_of (numbered (search_findings (take 21260 all) 16384))))) }
{
    let mut bytes = ArrayVec::new();
    read_front(input, &mut bytes)?;
    let mut store = [0i32; 16384];
    let line = line_of(search(bytes.as_slice(), &mut store).map_err(Refusal::number));
    output.write_all(line.as_bytes())
}

fn main(rt: HostRuntime) -> io::Result<()> {
    answer(&mut rt.stdin(), &mut rt.stdout())
}
