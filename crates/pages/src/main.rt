// Lists the master on standard input: the preamble as page 0, then every page.
#![tactic(auto)]

ghost use Rattle.std.specs.Prelude.{◌<◌};

mod listing; // a row and the sections as text
mod values; // a value as text

use crate::listing::{ROW, Row, Sections};
use crate::values::Bodies;
use input::read_full;
use skeleton::pages::PLACES;
use std::io;
use tokens::{Outcome, Refusal, Refused};

// The longest master.
const LONGEST: usize = 32768;

// The steps that each body may take.
const ALLOWANCE: i64 = 100000;

// The bytes of scratch.
const SCRATCH: usize = 48000;

// The most bodies: the preamble and 512 pages.
const BODIES: usize = PLACES / 2;

// The bytes of all rows.
const ROWS: usize = BODIES * ROW;

// The bytes of the sections.
const SECTIONS: usize = 24052;

// A master, and where each of its bodies stands.
#[derive(Clone, Copy)]
struct Master<'a> {
    bytes: &'a [u8],
    places: &'a [usize; PLACES],
}

impl<'a> Master<'a> {
    // The body n.
    fn body(self, n: usize) -> &'a [u8]
        requires { n < BODIES }
    {
        let from = self.places[2 * n];
        let end = self.places[2 * n + 1];
        self.bytes.get(from..end).unwrap_or(&[])
    }

    // The bodies that page n may name.
    fn bodies(self, n: usize) -> Bodies<'a>
        requires { n < BODIES }
    {
        Bodies {
            preamble: self.body(0),
            page: self.body(n),
        }
    }
}

// What the library is lent.
#[derive(Drop)]
struct Tables {
    scratch: [u8; SCRATCH],
    rows: [u8; ROWS],
    sections: [u8; SECTIONS],
}

impl Tables {
    fn run(&mut self, master: &[u8]) -> Outcome {
        book::calls::run(master, ALLOWANCE, &mut self.scratch, &mut self.rows)
    }

    fn reprint(&mut self, master: &[u8], page: i64) -> Outcome {
        book::calls::reprint(
            master,
            ALLOWANCE,
            page,
            &mut self.scratch,
            &mut self.rows,
            &mut self.sections,
        )
    }

    // The row of page n.
    fn row(&self, n: usize) -> Row
        requires { n < BODIES }
    {
        let (rows, _) = self.rows.as_chunks();
        Row::read(n, &rows[n])
    }
}

fn print_refusal(rt: &impl Print, refused: Refused) -> io::Result<()> {
    println!(rt; "refused {} at {}", refused.refusal.number(), refused.place)
}

// Bodies 0 to `last`, each run anew for its sections.
fn print_bodies(
    rt: &impl Print,
    master: Master<'_>,
    last: usize,
    tables: &mut Tables,
) -> io::Result<()> {
    for n in 0..=last.min(BODIES - 1) {
        if let Err(refused) = tables.reprint(master.bytes, n as i64) {
            return print_refusal(rt, refused);
        }
        let sections = Sections::read(&tables.sections, master.bodies(n));
        print!(rt; "{}{sections}", tables.row(n))?;
    }
    Ok(())
}

fn print_listing(rt: &impl Print, bytes: &[u8]) -> io::Result<()> {
    if LONGEST < bytes.len() {
        return print_refusal(rt, Refusal::TooLong.met_at(0));
    }
    let mut tables = Tables {
        scratch: [0; SCRATCH],
        rows: [0; ROWS],
        sections: [0; SECTIONS],
    };
    match tables.run(bytes) {
        Ok(last) => {
            let mut places = [0usize; PLACES];
            let _ = skeleton::pages::survey(bytes, &mut places);
            let places = &places;
            print_bodies(rt, Master { bytes, places }, last, &mut tables)
        }
        Err(refused) => print_refusal(rt, refused),
    }
}

fn main(rt: HostRuntime) -> io::Result<()> {
    let mut input = [0u8; LONGEST + 1];
    let n = read_full(&mut rt.stdin(), &mut input)?;
    print_listing(&rt, &input[..n])
}
