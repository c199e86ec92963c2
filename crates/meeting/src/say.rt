// Lines on standard output. A refusal has its number and zeros.
use crate::tally::Tally;
use std::io;
use table::answer::{Level, Prospect};
use table::refusal::Refusal;

pub fn tally(rt: &impl Print, rounds: u32, y: &Tally) -> io::Result<()> {
    println!(rt; "rounds {rounds} {y}")
}

// A call's name, code and value.
pub fn answer(rt: &impl Print, name: &str, a: Result<u32, Refusal>) -> io::Result<()> {
    match a {
        Ok(value) => println!(rt; "{name} 0 {value}"),
        Err(e) => println!(rt; "{name} {} 0", u8::from(e)),
    }
}

pub fn level(rt: &impl Print, a: Result<Level, Refusal>) -> io::Result<()> {
    match a {
        Ok(f) => println!(rt; "fill 0 {} {}", f.own, f.total),
        Err(e) => println!(rt; "fill {} 0 0", u8::from(e)),
    }
}

pub fn prospect(rt: &impl Print, a: Result<Prospect, Refusal>) -> io::Result<()> {
    match a {
        Ok(p) => println!(rt; "preview 0 {} {}", p.value, p.gain),
        Err(e) => println!(rt; "preview {} 0 0", u8::from(e)),
    }
}
