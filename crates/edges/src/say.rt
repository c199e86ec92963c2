// Lines on standard output.
use std::io;
use table::answer::Reading;
use table::refusal::Refusal;

pub fn title(rt: &impl Print, words: &str) -> io::Result<()> {
    rt.println(words)
}

// A name and a number.
pub fn count(rt: &impl Print, name: &str, n: u32) -> io::Result<()> {
    println!(rt; "{name} {n}")
}

// A call's name, code and value. A refusal has its number and value 0.
pub fn answer(rt: &impl Print, name: &str, a: Result<u32, Refusal>) -> io::Result<()> {
    match a {
        Ok(value) => println!(rt; "{name} 0 {value}"),
        Err(e) => println!(rt; "{name} {} 0", u8::from(e)),
    }
}

pub fn reading(rt: &impl Print, name: &str, a: Result<Reading, Refusal>) -> io::Result<()> {
    answer(rt, name, a.map(|r| r.value))
}

// A name, and the bytes of a sheet or of a board.
pub fn bytes(rt: &impl Print, name: &str, p: &[u8]) -> io::Result<()> {
    rt.print(name)?;
    for x in p {
        print!(rt; " {x}")?;
    }
    rt.println("")
}
