// Filling a buffer that is exactly as long as the string. Symbols are laid into it after the separator's place and turned into letters
// there, so that no other memory is needed. Each contract says the length in full, of its own count: a buffer and a count in one struct would be
// no plainer, as every call takes another part of the buffer.
ghost use Rattle.std.specs.Prelude.{◌≡◌, ◌++◌, map, ◌+◌, ◌<◌, length, take, drop};
ghost use Rattle.laws.specs.Lists.{Every};
ghost use Rattle.paper.specs.Checksum.{checksum, six_symbols};
ghost use Rattle.paper.specs.Bits.{to_symbols};
ghost use Rattle.answers.specs.Writing.{written_string, written_address};
ghost use Rattle.gf32.specs.Bytes.{character};
ghost use Rattle.checksum.specs.Parameters.{constant_for};

use checksum::{CHECKSUM_LENGTH, Checksum, Engine};

// What stands around the symbols of a string: the prefix before them, and after them the checksum of both.
#[derive(Clone, Copy)]
pub(crate) struct Frame<'a> {
    pub(crate) checksum: Checksum,
    pub(crate) prefix: &'a [u8],
}

// Symbols, bytes and addresses are each laid in their own way, in a few lines, and `finish` does the rest: a closure that lays them would need a
// contract of its own.
impl<'a> Frame<'a> {
    #[tactic(auto, using(crate::proofs::Laying::laid_copied, crate::proofs::Laying::laid_ready, crate::proofs::Laying::laid_finished))]
    pub(crate) fn put_symbols(self, symbols: &[u8], out: &mut [u8])
        requires { (length out.old ≡ length self.prefix.now + 7 + length symbols.now) × Every (λ v. v < 32) symbols.now }
        ensures { out.new ≡ written_string (constant_for self.entry.checksum) self.entry.prefix.now symbols.now }
    {
        let start = self.prefix.len() + 1;
        lay(symbols, &mut out[start..start + symbols.len()]);
        self.finish(symbols.len(), out);
    }

    pub(crate) fn put_bytes(self, bytes: &[u8], out: &mut [u8])
        requires { length out.old ≡ length self.prefix.now + 7 + length (to_symbols bytes.now) }
        ensures { out.new ≡ written_string (constant_for self.entry.checksum) self.entry.prefix.now (to_symbols bytes.now) }
    {
        let start = self.prefix.len() + 1;
        let count = iter::bytes_to_symbols(bytes, &mut out[start..]).unwrap();
        self.finish(count, out);
    }

    // The symbols stand after the separator's place already, so many of them; the rest of the string is put around them.
    #[tactic(auto, using(crate::proofs::Filling::length_kept))]
    fn finish(self, count: usize, out: &mut [u8])
        requires { (length out.old ≡ length self.prefix.now + 7 + count) × Every (λ v. v < 32) (take count (drop (length self.prefix.now + 1) out.old)) }
        ensures { out.new ≡ written_string (constant_for self.entry.checksum) self.entry.prefix.now
            (take count (drop (length self.entry.prefix.now + 1) out.old)) }
    {
        let start = self.prefix.len() + 1;
        let residue = self.check_residue(&out[start..start + count]);
        put_data(residue, count, &mut out[start..]);
        out[self.prefix.len()] = b'1';
        hrp::to_lower(self.prefix, out).unwrap();
    }

    // Its six symbols are the checksum.
    #[tactic(auto, using(checksum::proofs::Written::engine_writes))]
    fn check_residue(self, symbols: &[u8]) -> u32
        ensures { six_symbols result ≡ checksum (constant_for self.entry.checksum) self.entry.prefix.now symbols.now }
    {
        let engine = Engine::new().input_prefix(self.prefix);
        engine
            .input_symbols(symbols)
            .input_target(self.checksum)
            .residue()
    }
}

// The version is the first symbol, and says which checksum.
pub(crate) fn put_address(prefix: &[u8], version: u8, program: &[u8], out: &mut [u8])
    requires { (length out.old ≡ length prefix.now + 7 + (1 + length (to_symbols program.now))) × (version < 32) }
    ensures { out.new ≡ written_address prefix.now version program.now }
{
    let start = prefix.len() + 1;
    out[start] = version;
    let count = iter::bytes_to_symbols(program, &mut out[start + 1..]).unwrap();
    let frame = Frame {
        checksum: checksum::for_version(version),
        prefix,
    };
    frame.finish(1 + count, out);
}

// A symbol a turn: a copy would be a call of C's memmove, and what C links needs no function from outside.
#[tactic(auto, using(laws::proofs::Front::front_more))]
fn lay(symbols: &[u8], place: &mut [u8])
    requires { length place.old ≡ length symbols.now }
    ensures { place.new ≡ symbols.now }
{
    for (i, symbol) in place.iter_mut().enumerate() {
        *symbol = symbols[i];
    }
}

// The checksum after so many symbols, and all of them as letters.
#[tactic(auto, using(crate::proofs::Filling::data_written))]
fn put_data(residue: u32, count: usize, part: &mut [u8])
    requires { length part.old ≡ count + 6 }
    ensures { part.new ≡ map character (take count part.old ++ six_symbols residue) }
{
    put_check(residue, &mut part[count..]);
    to_letters(part);
}

// The place is the checksum's own.
#[tactic(auto, using(laws::proofs::Front::front_more, checksum::proofs::Six::six_at))]
fn put_check(residue: u32, place: &mut [u8])
    requires { length place.old ≡ 6 }
    ensures { place.new ≡ six_symbols residue }
{
    for (i, symbol) in place.iter_mut().enumerate() {
        *symbol = checksum::unpack(residue, CHECKSUM_LENGTH - 1 - i);
    }
}

#[tactic(auto, using(laws::proofs::Front::in_place))]
fn to_letters(symbols: &mut [u8])
    ensures { symbols.new ≡ map character symbols.old }
{
    for symbol in symbols.iter_mut() {
        *symbol = gf32::to_byte(*symbol);
    }
}
