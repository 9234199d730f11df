// The command-line checker: one address a line from standard input, its number in decimal a line to standard output. What is answered is the
// crate lines, which is proved; here are only the calls that read and write.
#![tactic(auto)]

ghost use Rattle.std.specs.Prelude.{◌≤◌, length};

use lines::{KEPT, Line};
use std::fmt;
use std::io::Read;

// So many bytes of input are read at once, and there is room for so many of output.
const ROOM: usize = 65536;

// Why a run stops with answers missing.
#[derive(Clone, Copy)]
enum Failure {
    Reading,
    Writing,
    InputLong,
    LastAnswer,
    WritingLast,
}

impl fmt::Display for Failure {
    fn fmt<W: fmt::Write>(&self, f: &mut fmt::Formatter<W>) -> fmt::Result {
        f.write_str(match self {
            Failure::Reading =>
                "checker: reading failed; the input after the last answer was not judged",
            Failure::Writing => "checker: writing failed; answers are missing",
            Failure::InputLong => "checker: the input is too long; what follows was not judged",
            Failure::LastAnswer => "checker: the last answer is missing",
            Failure::WritingLast => "checker: writing failed; the last answer is missing",
        })
    }
}

fn main(rt: HostRuntime) {
    if let Err(failure) = run(&rt) {
        // A message that cannot be written is lost.
        let _ = rt.eprintln(failure);
    }
}

// Piece by piece to the end of the input. Each piece's answers are written before more is read.
fn run(rt: &(impl Input + Print)) -> Result<(), Failure> {
    let mut kept = Kept {
        line: [0; KEPT],
        len: 0,
    };
    let mut piece = [0u8; ROOM];
    let mut out = [0u8; ROOM];
    let mut input = rt.reader();
    for _ in 0..u64::MAX {
        let Ok(n) = input.read(&mut piece) else {
            return Err(Failure::Reading);
        };
        if n == 0 {
            return kept.finish(rt, &mut out);
        }
        kept.answer(rt, &piece[..n], &mut out)?;
    }
    Err(Failure::InputLong)
}

// What is kept of the last line between two pieces: fixed memory, and a count.
#[derive(Drop)]
struct Kept {
    line: [u8; KEPT],
    len: usize,
    ghost few: { len ≤ 91 },
}

// The output has room for any answer, which is three bytes at most: lines' theorem about a whole run (proofs/Whole.antt) asks it of each call.
impl Kept {
    // All answers of a piece.
    fn answer(&mut self, rt: &impl Print, piece: &[u8], out: &mut [u8; ROOM]) -> Result<(), Failure>
        requires { 3 ≤ length out.old }
    {
        let mut rest = piece;
        while !rest.is_empty() {
            let Ok(fed) = lines::feed(rest, &mut self.line, Line { len: self.len }, out) else {
                return Err(Failure::Writing);
            };
            if rt.write_all(&out[..fed.written]).is_err() {
                return Err(Failure::Writing);
            }
            self.len = fed.len;
            rest = &rest[fed.taken..];
        }
        Ok(())
    }

    // The last line's answer, if it had no line end.
    #[tactic(auto, using(lines::proofs::Whole::finish_numbers))]
    fn finish(&self, rt: &impl Print, out: &mut [u8; ROOM]) -> Result<(), Failure>
        requires { 3 ≤ length out.old }
    {
        let Ok(n) = lines::finish(&self.line, Line { len: self.len }, out) else {
            return Err(Failure::LastAnswer);
        };
        if rt.write_all(&out[..n]).is_err() {
            return Err(Failure::WritingLast);
        }
        Ok(())
    }
}
