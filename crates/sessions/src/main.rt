// The sessions of the scope document: no input, a line for each with its number and the answers' numbers.
#![tactic(auto)]

use paper::{FileId, PageNum, Refusal};
use std::{array, io};

const CLIENT: u16 = 7;

const FIRST: FileId = FileId(1);

const SECOND: FileId = FileId(2);

const ZERO: PageNum = PageNum(0);

// A call of a session, by client 7 where none is named. A step counts from 1, and is refused where no outcome is named.
#[derive(Clone, Copy, PartialEq, Eq, Debug)]
enum Call {
    // At 10: page A to number 0, until an expiry.
    Create(u32),
    // At a time, of a file and a number.
    Read(u32, FileId, PageNum),
    // At a time, by a client, to a file: page B to number 0; perhaps a step and its outcome.
    Write(u32, u16, FileId, Option<(usize, u8)>),
    // At 20, for file 1: an expiry; a step.
    SetExpiry(u32, usize),
    // At 20, of file 1: a step.
    Destroy(usize),
    // At a time.
    Scavenge(u32),
}

use Call::{Create, Destroy, Read, Scavenge, SetExpiry, Write};

const SESSIONS: [&[Call]; 12] = [
    // A file is live until its expiry.
    &[Create(100), Read(99, FIRST, ZERO), Read(100, FIRST, ZERO)],
    // A page that is not there, and a page number that no file has.
    &[
        Create(100),
        Read(11, FIRST, PageNum(1)),
        Read(11, FIRST, PageNum(16)),
    ],
    // An expiry in the past.
    &[Create(5), Read(10, FIRST, ZERO)],
    // Another client's file, and none.
    &[
        Create(100),
        Write(11, 8, FIRST, None),
        Write(11, 8, SECOND, None),
    ],
    // The header bank refuses a Write.
    &[
        Create(100),
        Write(20, CLIENT, FIRST, Some((3, 1))),
        Read(20, FIRST, ZERO),
        Read(20, SECOND, ZERO),
    ],
    // The page bank refuses the clean-up of a Write.
    &[
        Create(100),
        Write(20, CLIENT, FIRST, Some((4, 1))),
        Read(20, SECOND, ZERO),
        Read(20, FIRST, ZERO),
    ],
    // Power is lost before the header step.
    &[
        Create(100),
        Write(20, CLIENT, FIRST, Some((3, 2))),
        Read(20, FIRST, ZERO),
    ],
    // Power is lost after the header step.
    &[
        Create(100),
        Write(20, CLIENT, FIRST, Some((4, 2))),
        Read(20, FIRST, ZERO),
        Read(20, SECOND, ZERO),
    ],
    // A longer life refused at its page.
    &[Create(100), SetExpiry(200, 2), Read(100, FIRST, ZERO)],
    // A shorter life whose page is not told.
    &[
        Create(100),
        SetExpiry(50, 3),
        Read(49, SECOND, ZERO),
        Read(50, SECOND, ZERO),
    ],
    // A clock gone back.
    &[Create(100), Read(9, FIRST, ZERO), Read(10, FIRST, ZERO)],
    // A page left behind by Destroy, swept when it expires.
    &[Create(100), Destroy(3), Scavenge(99), Scavenge(100)],
];

// An outcome list that is zero but for one step.
fn failing(step: usize, outcome: u8) -> [u8; 18] {
    array::from_fn(|k| if k + 1 == step { outcome } else { 0 })
}

fn answer(headers: &mut [u8], pages: &mut [u8], call: Call) -> Result<(), Refusal> {
    let smooth = [0; 18];
    match call {
        Create(expires) => {
            let a = [65; 120];
            service::create(headers, pages, &smooth, 10, CLIENT, ZERO, &a, expires).map(drop)
        }
        Read(time, id, number) => {
            let mut lent = [0; 120];
            service::read(headers, pages, &smooth, time, id, number, &mut lent)
        }
        Write(time, client, id, step) => {
            let b = [66; 120];
            let outcomes = step.map_or(smooth, |(k, outcome)| failing(k, outcome));
            service::write(headers, pages, &outcomes, time, client, id, ZERO, &b).map(drop)
        }
        SetExpiry(expires, step) => {
            let outcomes = failing(step, 1);
            service::set_expiry(headers, pages, &outcomes, 20, CLIENT, FIRST, expires).map(drop)
        }
        Destroy(step) => {
            let outcomes = failing(step, 1);
            service::destroy(headers, pages, &outcomes, 20, CLIENT, FIRST)
        }
        Scavenge(time) => service::scavenge(headers, pages, &smooth, time).map(drop),
    }
}

fn run(rt: &impl Print, headers: &mut [u8], pages: &mut [u8], calls: &[Call]) -> io::Result<()> {
    for call in calls {
        print!(rt; " {}", paper::number(&answer(headers, pages, *call)))?;
    }
    Ok(())
}

fn main(rt: HostRuntime) -> io::Result<()> {
    let mut headers = [0u8; 2340];
    let mut pages = [0u8; 32768];
    for (k, calls) in SESSIONS.iter().enumerate() {
        print!(rt; "{}", k + 1)?;
        let _ = service::format(&mut headers, &mut pages);
        run(&rt, &mut headers, &mut pages, calls)?;
        println!(rt; "")?;
    }
    print!(rt; "13")?;
    let _ = service::format(&mut headers, &mut pages);
    run(&rt, &mut headers, &mut pages, &[Create(100)])?;
    // The first header's page id, nine bits from its 18th byte, becomes 2.
    headers[54] = 1;
    headers[55] = 0;
    run(&rt, &mut headers, &mut pages, &[Read(10, FIRST, ZERO)])?;
    println!(rt; "")
}
