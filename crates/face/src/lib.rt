// Pennywax for callers that know C: numbers and byte slices alone. A slice is two arguments, a pointer and a length. A checksum is a
// number here, 1 for Bech32 and 2 for Bech32m; any other is refused with 28 before anything else is looked at. Each function gives
// document 01's number, 0 for accepted; a refusal sets the other results to 0. C calls them through the static library face_c, by a name for each:
// that some differ in little is the C interface.
//
// What is proved of a function with `apart` in its name is proved for results and buffers that lie apart from all else that is given, as the
// language has it. Callers do not know that: c/pennywax.c, which they call, asks pennywax_ranges_overlap first.
#![tactic(auto)]

mod coded;

ghost use Rattle.std.specs.Prelude.{◌≡◌, ◌+◌, ltb};
ghost use Rattle.numbers.specs.Numbers.{number_in};
ghost use Rattle.answers.specs.Numbers.{count_in, version_in, length_in, prefix_in, symbols_in};
ghost use Rattle.face.specs.Overlap.{top};
ghost use Rattle.face.specs.Promises.{AddressChecked, AddressRead, StringRead, PlaceLocated, BytesRead, SymbolsWritten, BytesWritten, AddressWritten, OverlapTold};

use answers::{Address, Parts};
use numbers::{ACCEPTED, Refusal};

pub fn pennywax_apart_check_address(s: &[u8], version: &mut u8, length: &mut usize) -> u8
    ensures { AddressChecked s.now result version.new length.new }
{
    tell_address(decode::check_address(s), version, length)
}

pub fn pennywax_apart_read_address(
    s: &[u8],
    out: &mut [u8],
    version: &mut u8,
    length: &mut usize,
) -> u8
    ensures { AddressRead s.now out.old result out.new version.new length.new }
{
    tell_address(decode::read_address(s, out), version, length)
}

// Generic reading: how long the prefix is, and how many symbols the data part has with the checksum taken off.
pub fn pennywax_apart_read(code: u8, s: &[u8], prefix: &mut usize, symbols: &mut usize) -> u8
    ensures { StringRead code s.now result prefix.new symbols.new }
{
    tell_parts(coded::read(code, s), prefix, symbols)
}

// The place of one changed symbol, counted from the end; 0 is answered where one is named.
pub fn pennywax_apart_locate(code: u8, s: &[u8], place: &mut usize) -> u8
    ensures { PlaceLocated code s.now result place.new }
{
    tell(coded::locate(code, s), place)
}

pub fn pennywax_apart_read_bytes(code: u8, s: &[u8], out: &mut [u8], written: &mut usize) -> u8
    ensures { BytesRead code s.now out.old result out.new written.new }
{
    tell(coded::read_bytes(code, s, out), written)
}

pub fn pennywax_apart_write_symbols(
    code: u8,
    prefix: &[u8],
    symbols: &[u8],
    out: &mut [u8],
    written: &mut usize,
) -> u8
    ensures { SymbolsWritten code prefix.now symbols.now out.old result out.new written.new }
{
    tell(coded::write_symbols(code, prefix, symbols, out), written)
}

pub fn pennywax_apart_write_bytes(
    code: u8,
    prefix: &[u8],
    bytes: &[u8],
    out: &mut [u8],
    written: &mut usize,
) -> u8
    ensures { BytesWritten code prefix.now bytes.now out.old result out.new written.new }
{
    tell(coded::write_bytes(code, prefix, bytes, out), written)
}

pub fn pennywax_apart_write_address(
    prefix: &[u8],
    version: u8,
    program: &[u8],
    out: &mut [u8],
    written: &mut usize,
) -> u8
    ensures { AddressWritten prefix.now version program.now out.old result out.new written.new }
{
    tell(
        encode::write_address(prefix, version, program, out),
        written,
    )
}

// Whether m bytes at address a and n bytes at address b overlap: 0 or 37. Addresses are compared by their differences, since a sum may be no usize.
#[tactic(auto, unfolding(crate::specs::Overlap::overlap_number))]
pub fn pennywax_ranges_overlap(a: usize, m: usize, b: usize, n: usize) -> u8
    ensures { OverlapTold a m b n result }
{
    if m == 0 || n == 0 {
        return ACCEPTED;
    }
    if reaches_past_top(a, m) || reaches_past_top(b, n) {
        return Refusal::RangesOverlap.into();
    }
    let apart = if a < b { m <= b - a } else { n <= a - b };
    if apart {
        ACCEPTED
    } else {
        Refusal::RangesOverlap.into()
    }
}

// Its last byte would have no address.
fn reaches_past_top(start: usize, count: usize) -> bool
    ensures { result ≡ ltb top (start + count) }
{
    count != 0 && usize::MAX - start < count - 1
}

// ---- an answer as numbers: 0 for each result where it is a refusal. One function over Parts and Address would take a closure for each field, and be
// no plainer than two.

fn tell(answer: Result<usize, Refusal>, count: &mut usize) -> u8
    ensures number { result ≡ number_in answer }
    ensures count { count.new ≡ count_in answer }
{
    *count = answer.unwrap_or(0);
    numbers::number_in(answer)
}

fn tell_parts(answer: Result<Parts, Refusal>, prefix: &mut usize, symbols: &mut usize) -> u8
    ensures number { result ≡ number_in answer }
    ensures prefix { prefix.new ≡ prefix_in answer }
    ensures symbols { symbols.new ≡ symbols_in answer }
{
    *prefix = answer.map_or(0, |parts| parts.prefix);
    *symbols = answer.map_or(0, |parts| parts.symbols);
    numbers::number_in(answer)
}

fn tell_address(answer: Result<Address, Refusal>, version: &mut u8, length: &mut usize) -> u8
    ensures number { result ≡ number_in answer }
    ensures version { version.new ≡ version_in answer }
    ensures length { length.new ≡ length_in answer }
{
    *version = answer.map_or(0, |address| address.version);
    *length = answer.map_or(0, |address| address.length);
    numbers::number_in(answer)
}
