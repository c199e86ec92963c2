// Twelve bytes decoded: every twelve bytes are some step.
ghost use Rattle.std.specs.Prelude.{◌≡◌, length};
ghost use Rattle.dayfile.specs.Record.{query_of, step_of, update_of};
ghost use Rattle.dayfile.specs.Record.{bib as Record·bib};

use crate::step::Step;
use buffers::numbers::read;

fn bib(p: &[u8]) -> u16
    requires { length p.now ≡ 12 }
    ensures { result ≡ Record·bib p.now }
{
    read(&p[4..6]) as u16
}

fn update(p: &[u8]) -> Step
    requires { length p.now ≡ 12 }
    ensures { result ≡ update_of p.now }
{
    let v = read(&p[8..12]) as u32;
    Step::Update {
        client: p[1],
        revision: p[2],
        kind: p[6],
        bib: bib(p),
        v,
    }
}

fn query(p: &[u8]) -> Step
    requires { length p.now ≡ 12 }
    ensures { result ≡ query_of p.now }
{
    Step::Query {
        client: p[1],
        revision: p[2],
        bib: bib(p),
    }
}

// Fields that a step does not use are not looked at.
#[tactic(auto, unfolding(crate::specs::Record::step_of))]
pub(crate) fn decode(p: &[u8]) -> Step
    requires { length p.now ≡ 12 }
    ensures { result ≡ step_of p.now }
{
    match p[0] {
        1 => update(p),
        2 => query(p),
        3 => Step::Yield(p[1]),
        4 => Step::Fork(p[2]),
        5 => Step::Join(p[2], p[3]),
        _ => Step::Unknown,
    }
}
