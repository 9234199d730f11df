// The command-line checker over bytes in memory: one address a line, its number in decimal a line. The input comes in pieces, cut anywhere;
// between two pieces the caller keeps a line buffer of at least 91 bytes and the count that the last call gave back. Memory stays the same
// however long a line is.
#![tactic(auto)]

ghost use Rattle.std.specs.Prelude.{◌≡◌, ◌+◌, ◌≤◌, length, take, [], ◌∷◌, ◌++◌};
ghost use Rattle.std.proofs.lemmas.List.Edits.{sets};
ghost use Rattle.answers.specs.Reading.{address_verdict};
ghost use Rattle.numbers.specs.Numbers.{number_in};
ghost use Rattle.lines.specs.Lines.{decimal};
ghost use Rattle.lines.specs.Feeding.{kept_count, count_with, line_with, standing, answer_length};
ghost use Rattle.lines.specs.Promises.{WasFed, WasFinished, WentOn};

use numbers::Refusal;

// A line's bytes are kept up to this count: so many are too long for an address already.
pub const KEPT: usize = 91;

const LINE_END: u8 = b'\n';

// What is known of a line that is not ended yet: how many of its bytes stand at the front of the line buffer. 0 at the start of the input. The buffer
// is no part of it: firmware lends one to each call, and keeps this count alone between calls.
#[derive(Clone, Copy)]
pub struct Line {
    pub len: usize,
}

// What comes of a piece: how many of its bytes were taken, how many bytes of the output are written, and the count for the next call. All three lie in
// buffers that the caller lent.
#[derive(Clone, Copy)]
pub struct Fed {
    pub taken: usize,
    pub written: usize,
    pub len: usize,
}

// Takes a piece of the input and writes the answers of the lines that end in it. It stops early only at a line end whose answer the output
// has no room for: then the caller empties the output and comes back with the rest. It refuses with 17 if the line buffer is under 91 bytes,
// or if the very first byte is such a line end, and nothing is taken or written then; so a call that is not refused takes something of a piece
// that is not empty.
pub fn feed(input: &[u8], line: &mut [u8], state: Line, out: &mut [u8]) -> Result<Fed, Refusal>
    ensures { WasFed input.now line.old state.len out.old result line.new out.new }
{
    if line.len() < KEPT {
        return Err(Refusal::RoomSmall);
    }
    let len = kept_count(state.len);
    if input.is_empty() {
        return Ok(Fed {
            taken: 0,
            written: 0,
            len,
        });
    }
    let fed = take_bytes(input, &mut Kept { line, len }, out);
    // The first byte is a line end that there is no room to answer: of a piece that is not empty, nothing is taken in no other case.
    if fed.taken == 0 {
        return Err(Refusal::RoomSmall);
    }
    Ok(fed)
}

// The end of the input: a last line with no line end is answered, and how many bytes that is comes back; 0 if there is no such line. It refuses
// with 17 if the line buffer is under 91 bytes, or the output has no room for the answer: then the caller empties it and comes back.
pub fn finish(line: &[u8], state: Line, out: &mut [u8]) -> Result<usize, Refusal>
    ensures { WasFinished line.now state.len out.old result out.new }
{
    if line.len() < KEPT {
        return Err(Refusal::RoomSmall);
    }
    let len = kept_count(state.len);
    if len == 0 {
        return Ok(0);
    }
    let number = number_of_line(&line[..len]);
    if out.len() < answer_length(number) {
        return Err(Refusal::RoomSmall);
    }
    Ok(put(number, out, 0))
}

#[tactic(auto, unfolding(crate::specs::Feeding::kept_count))]
fn kept_count(len: usize) -> usize
    ensures value { result ≡ kept_count len }
    ensures upper_bound { result ≤ 91 }
{
    len.min(KEPT)
}

// The bytes of a line that is not ended yet, at the front of a line buffer that has room for as many as are kept. A buffer and a count: the memory is
// the caller's.
#[derive(Drop)]
struct Kept<'a> {
    line: &'a mut [u8],
    len: usize,
    ghost room: { 91 ≤ length line.now },
    ghost few: { len ≤ 91 },
}

impl<'a> Kept<'a> {
    // A byte behind the kept ones, while there are fewer than enough.
    #[tactic(auto, unfolding(crate::specs::Feeding::count_with, crate::specs::Feeding::line_with))]
    fn keep(&mut self, byte: u8)
        ensures same_buffer { self.new.line.ghost_name ≡ self.old.line.ghost_name }
        ensures count { self.new.len ≡ count_with self.old.len }
        ensures bytes { self.new.line.now ≡ line_with byte self.old.line.now self.old.len }
    {
        if self.len < KEPT {
            self.line[self.len] = byte;
            self.len += 1;
        }
    }

    // The number of the address that the kept bytes are.
    fn number(&self) -> u8
        ensures { result ≡ number_in (address_verdict (take self.now.len self.now.line.now)) }
    {
        number_of_line(&self.line[..self.len])
    }
}

// Byte by byte: a line end is answered, any other byte is kept.
fn take_bytes(input: &[u8], kept: &mut Kept, out: &mut [u8]) -> Fed
    ensures same_buffer { kept.new.line.ghost_name ≡ kept.old.line.ghost_name }
    ensures went_on { WentOn input.now (standing 0 kept.old.line.now kept.old.len out.old 0) result kept.new.line.now out.new }
{
    let mut written = 0;
    for (taken, &byte) in input.iter().enumerate() {
        if byte != LINE_END {
            kept.keep(byte);
            continue;
        }
        let number = kept.number();
        if out.len() - written < answer_length(number) {
            return Fed {
                taken,
                written,
                len: kept.len,
            };
        }
        written = put(number, out, written);
        kept.len = 0;
    }
    Fed {
        taken: input.len(),
        written,
        len: kept.len,
    }
}

// The number of the address that a line is.
fn number_of_line(line: &[u8]) -> u8
    ensures { result ≡ number_in (address_verdict line.now) }
{
    numbers::number_in(decode::check_address(line))
}

// One digit or two, and a line end: what `put` writes.
fn answer_length(number: u8) -> usize
    ensures { result ≡ answer_length number }
{
    if number < 10 {
        return 2;
    }
    3
}

// A number in decimal, and a line end, at this place of the output; what comes back is the place after it. By hand: of two digits at most
// itoa is no plainer, with a buffer of its own, a copy out of it, and a bound on the number to be shown.
fn put(number: u8, out: &mut [u8], at: usize) -> usize
    requires { at + answer_length number ≤ length out.old }
    ensures { (result ≡ at + length (decimal number ++ 10 ∷ [])) × (out.new ≡ sets out.old at (decimal number ++ 10 ∷ [])) }
{
    if number < 10 {
        out[at] = b'0' + number;
        out[at + 1] = LINE_END;
        return at + 2;
    }
    out[at] = b'0' + number / 10;
    out[at + 1] = b'0' + number % 10;
    out[at + 2] = LINE_END;
    at + 3
}
