// Inspects a program: reads its bytes from standard input, and prints its figures or the refusal.
#![tactic(auto)]

ghost use Rattle.std.specs.Prelude.{◌≡◌, ◌≤◌, length, take, IfOk, IfSome};

use language::fault::Fault;
use language::inspecting::inspect;
use std::io;
use std::io::Read;

// One byte more than a program may have tells that an input is too long, however long it is.
const MOST_READ: usize = 4097;

// Reads into `front` until it is full or the input ends, and answers how many bytes there are. A loop, since the library's
// `read_to_end` allocates, and its `copy` does not say what an array then holds.
fn read_front<R: Read>(input: &mut R, front: &mut [u8]) -> io::Result<usize>
    ensures within { IfOk result (λ n. n ≤ length front.new) }
    ensures bytes { IfOk result (λ n. IfSome (R.remaining input.old) (λ xs. take n front.new ≡ take (length front.old) xs)) }
{
    let mut end = 0;
    while end < front.len() {
        let more = input.read(&mut front[end..])?;
        if more == 0 {
            break;
        }
        end += more;
    }
    Ok(end)
}

fn main(rt: HostRuntime) -> io::Result<()> {
    let mut front = [0; MOST_READ];
    let end = read_front(&mut rt.stdin(), &mut front)?;
    match inspect(&front[..end]) {
        Ok(found) => {
            println!(rt; "bytes {end}")?;
            println!(rt; "functions {}", found.functions)?;
            println!(rt; "size {}", found.size)?;
            println!(rt; "flips {}", found.flips)?;
            println!(rt; "leaves {}", found.leaves)
        }
        Err(fault) => println!(rt; "{}", fault.refusal()),
    }
}
