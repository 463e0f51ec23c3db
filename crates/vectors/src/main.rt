// Outside cases, run through the interface for other languages. Standard input holds them as records (tools/make-vectors.py). It prints the
// number of every case whose answer is another one, how many these are, and the count of the cases.
#![tactic(auto)]

mod calls;
mod record;
mod room;
mod text;

use input::read_full;
use record::{BODY, HEAD, Head, case_right};
use room::LONGEST;
use std::io::{Print, Result};

// No more cases are run.
const MOST: u64 = 1000000;

fn run_cases(rt: HostRuntime, body: &mut [u8; BODY], space: &mut [u8; LONGEST]) -> Result<()> {
    let mut cases: u64 = 0;
    let mut wrong: u64 = 0;
    for before in 0..MOST {
        let mut head = [0u8; HEAD];
        if read_full(&mut rt.stdin(), &mut head)? < HEAD {
            break;
        }
        cases = before + 1;
        if !case_right(rt, Head::from(head), body, space)? {
            wrong += 1;
            println!(rt; "{cases} differs")?;
        }
    }
    println!(rt; "{wrong} differ")?;
    println!(rt; "{cases} cases")
}

fn main(rt: HostRuntime) -> Result<()> {
    let mut body = [0u8; BODY];
    let mut space = [0u8; LONGEST];
    run_cases(rt, &mut body, &mut space)
}
