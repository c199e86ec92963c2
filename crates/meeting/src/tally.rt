// What the calls answered: a checksum of all codes and values, and how many steps of each kind were taken.
use std::fmt;
use table::refusal::Refusal;

#[derive(Clone, Copy, Debug, Default)]
pub struct Tally {
    sum: u64,
    forks: u32,
    joins: u32,
    updates: u32,
}

impl Tally {
    // A refusal has its number and value 0.
    pub fn heard(&mut self, a: Result<u32, Refusal>) {
        let (code, value) = match a {
            Ok(value) => (0, value),
            Err(e) => (u8::from(e), 0),
        };
        self.sum = (self.sum % 1000003 * 31 + u64::from(code) * 101 + u64::from(value)) % 1000003;
    }

    pub fn forked(&mut self, a: Result<u32, Refusal>) {
        self.heard(a);
        self.forks = self.forks.wrapping_add(u32::from(a.is_ok()));
    }

    pub fn joined(&mut self, a: Result<u32, Refusal>) {
        self.heard(a);
        self.joins = self.joins.wrapping_add(u32::from(a.is_ok()));
    }

    pub fn updated(&mut self, a: Result<u32, Refusal>) {
        self.heard(a);
        self.updates = self.updates.wrapping_add(u32::from(a.is_ok()));
    }
}

impl fmt::Display for Tally {
    fn fmt<W: fmt::Write>(&self, f: &mut fmt::Formatter<W>) -> fmt::Result {
        let Tally {
            sum,
            forks,
            joins,
            updates,
        } = self;
        write!(f, "forks {forks} joins {joins} updates {updates} sum {sum}")
    }
}
