// Reads a recording from standard input and prints its report. What is printed is made by
// `report::report`; here is only the reading and the writing. One byte more than a file may have is
// read, so that a longer one is seen; that the output has room for every report is `Uncut` in the
// specs of `model`.
#![tactic(auto)]

use input::read_full;
use std::io;

fn main(rt: HostRuntime) -> io::Result<()> {
    let mut file = [0u8; 16385];
    let mut work = [0u16; 32768];
    let mut list = [0u16; 24576];
    let mut out = [0u8; 262144];
    let length = read_full(&mut rt.stdin(), &mut file)?;
    let printed = report::report(&file[0..length], &mut work, &mut list, &mut out);
    rt.write_all(&out[0..printed])
}
