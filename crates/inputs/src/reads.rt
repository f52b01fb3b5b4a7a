// Reading an input.
ghost use Rattle.std.specs.Prelude.{◌≡◌, ◌≤◌, length};
ghost use Rattle.inputs.specs.declared.reads.Lack.TheVariants.{Failed};
ghost use Rattle.inputs.specs.Inputs.{after_read, Read, input_after, Further, Within, filled_by, ended_by};

use std::io;
use std::ops::ControlFlow;

// A piece of an input.
pub const PIECE: usize = 512;

// Why an input is not as many bytes as are wanted: they are not there, or more follow; or a read has failed.
#[derive(Clone, Copy, Debug)]
pub enum Lack {
    Wrong,
    Failed(io::Error),
}

impl From<io::Error> for Lack {
    ghost from_gives = { λ e lack. lack ≡ Failed e };

    fn from(error: io::Error) -> Lack {
        Lack::Failed(error)
    }
}

// After a read into `part` that returned `got`: so many bytes more, or the end.
pub fn after_read(got: io::Result<usize>, part: &[u8]) -> io::Result<Option<usize>>
    ensures value { result ≡ after_read got (length part.now) }
    ensures read { Read (length part.now) result }
{
    let n = got?.min(part.len());
    Ok((n > 0).then_some(n))
}

// What a read behind `done` bytes makes of the input: it goes on, or that is all. A failure is no input.
pub fn input_after(
    done: usize,
    reading: io::Result<Option<usize>>,
) -> io::Result<ControlFlow<usize, usize>>
    ensures { result ≡ input_after done reading }
{
    match reading? {
        Some(n) => Ok(ControlFlow::Continue(n)),
        None => Ok(ControlFlow::Break(done)),
    }
}

// One read behind the bytes that are there.
pub fn read_more<R: io::Read>(
    source: &mut R,
    space: &mut [u8],
    done: usize,
) -> io::Result<ControlFlow<usize, usize>>
    requires { done ≤ length space.old }
    ensures { Further done (length space.old) result }
{
    let part = &mut space[done..];
    let got = source.read(part);
    input_after(done, after_read(got, part))
}

// Until the input ends or the space is full: what comes after that is not read.
pub fn read_input<R: io::Read>(source: &mut R, space: &mut [u8]) -> io::Result<usize>
    ensures { Within (length space.old) result }
{
    let mut done: usize = 0;
    while done < space.len() {
        match read_more(source, space, done)? {
            ControlFlow::Continue(n) => done += n,
            ControlFlow::Break(all) => return Ok(all),
        }
    }
    Ok(done)
}

// Whether an input fills n bytes.
pub fn filled(input: io::Result<usize>, n: usize) -> Result<(), Lack>
    ensures { result ≡ filled_by input n }
{
    if input? < n { Err(Lack::Wrong) } else { Ok(()) }
}

// Whether an input has no byte.
pub fn ended(input: io::Result<usize>) -> Result<(), Lack>
    ensures { result ≡ ended_by input }
{
    if input? == 0 {
        Ok(())
    } else {
        Err(Lack::Wrong)
    }
}
