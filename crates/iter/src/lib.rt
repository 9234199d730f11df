// Regrouping, document 01's module 7: bytes into symbols of five bits and back, the most significant bit first, over the caller's slices.
// A symbol counts by its low five bits.
#![tactic(auto)]

ghost use Rattle.std.specs.Prelude.{◌≡◌, List, map, IfSome, ℕ, ◌≤◌, ◌+◌, ◌-◌, ◌*◌, ◌/◌, ◌%◌, ◌^◌, ◌<◌, length, get_or};
ghost use Rattle.std.specs.Iterator.{YieldsFirst, UpTo, at_most, item_count};
ghost use Rattle.std.specs.Iterator.SizeHint.{IsWithinCount};
ghost use Rattle.paper.specs.Bits.{to_bytes, to_symbols};
ghost use Rattle.paper.specs.Charset.{symbol};
ghost use Rattle.answers.specs.Rules.{padding_verdict};
ghost use Rattle.iter.specs.Writing.{Wrote, Gives};
ghost use Rattle.iter.specs.Steps.{symbols_left, bytes_left};
ghost use Rattle.iter.specs.Promises.{SymbolsCounted, BytesCounted, SymbolsWritten, BytesWritten, CharactersWritten, PaddingJudged, CharactersJudged, SymbolsBegun, SymbolGiven, CountTold, BytesBegun, ByteGiven};

use gf32::Classes;
use numbers::Refusal;

// Of the bits left over at the end, so many may be padding.
const MAX_PADDING: usize = 4;

// How many symbols bytes_to_symbols would write. The division comes first, so that no product overflows.
#[tactic(auto, using(crate::proofs::Lengths::symbols_length))]
pub fn symbols_for_bytes(bytes: &[u8]) -> usize
    ensures { SymbolsCounted bytes.now result }
{
    let n = bytes.len();
    n / 5 * 8 + (n % 5 * 8 + 4) / 5
}

// How many bytes symbols_to_bytes would write.
#[tactic(auto, using(crate::proofs::Lengths::bytes_length))]
pub fn bytes_for_symbols(symbols: &[u8]) -> usize
    ensures { BytesCounted symbols.now result }
{
    let n = symbols.len();
    n / 8 * 5 + n % 8 * 5 / 8
}

// The last symbol is filled up with zero bits.
pub fn bytes_to_symbols(bytes: &[u8], out: &mut [u8]) -> Result<usize, Refusal>
    ensures { SymbolsWritten bytes.now out.old result out.new }
{
    write(out, symbols_for_bytes(bytes), |at| symbol_at(bytes, at))
}

// Bits left over at the end are dropped unlooked; `padding` judges them.
pub fn symbols_to_bytes(symbols: &[u8], out: &mut [u8]) -> Result<usize, Refusal>
    ensures { BytesWritten symbols.now out.old result out.new }
{
    write(out, bytes_for_symbols(symbols), |at| {
        byte_at(&Plain, symbols, at)
    })
}

// The same from characters of the charset, of either case. A byte outside the charset, which readers refuse before, counts as symbol 0.
#[tactic(auto, using(crate::proofs::Characters::characters_length))]
pub fn characters_to_bytes(characters: &[u8], out: &mut [u8]) -> Result<usize, Refusal>
    ensures { CharactersWritten characters.now out.old result out.new }
{
    let classes = gf32::classes();
    write(out, bytes_for_symbols(characters), |at| {
        byte_at(&classes, characters, at)
    })
}

// Document 01, answers 13 and 14: the bits that symbols_to_bytes drops.
pub fn padding(symbols: &[u8]) -> Result<(), Refusal>
    ensures { PaddingJudged symbols.now result }
{
    padding_in(&Plain, symbols)
}

// The same from characters, as in characters_to_bytes.
pub fn padding_of_characters(characters: &[u8]) -> Result<(), Refusal>
    ensures { CharactersJudged characters.now result }
{
    padding_in(&gf32::classes(), characters)
}

// A walk over the symbols of a slice of bytes: the slice, and how many it gave. Every count is a legal walk.
#[derive(Clone, Copy)]
pub struct BytesToSymbols<'a> {
    pub bytes: &'a [u8],
    pub at: usize,
}

impl<'a> BytesToSymbols<'a> {
    pub fn new(bytes: &'a [u8]) -> Self
        ensures { SymbolsBegun bytes.entry.ref_ptr bytes.now result }
    {
        BytesToSymbols { bytes, at: 0 }
    }

    // The iterator's step is this one. What the trait promises of it fixes each value; with clauses of its own in their place a `for` over a walk would
    // need a measure.
    pub fn next(&mut self) -> Option<u8>
        ensures { SymbolGiven self.old result self.new }
    {
        if symbols_for_bytes(self.bytes) <= self.at {
            return None;
        }
        let symbol = symbol_at(self.bytes, self.at);
        self.at += 1;
        Some(symbol)
    }
}

impl<'a> Iterator for BytesToSymbols<'a> {
    type Item = u8;

    ghost next_gives = { YieldsFirst symbols_left };

    ghost remaining = { item_count symbols_left };

    fn next(&mut self) -> Option<u8> {
        BytesToSymbols::next(self)
    }

    // Exactly, where the trait asks for bounds alone.
    fn size_hint(&self) -> (usize, Option<usize>)
        ensures lower { IsWithinCount result.0 (at_most (length (symbols_left self.now))) }
        ensures upper { IfSome result.1 (UpTo (at_most (length (symbols_left self.now)))) }
        ensures value { CountTold (symbols_left self.now) result }
    {
        let symbols = symbols_for_bytes(self.bytes).saturating_sub(self.at);
        (symbols, Some(symbols))
    }
}

// A walk over the bytes of a slice of symbols, the same way. Both are public, so each has its own type and promises.
#[derive(Clone, Copy)]
pub struct SymbolsToBytes<'a> {
    pub symbols: &'a [u8],
    pub at: usize,
}

impl<'a> SymbolsToBytes<'a> {
    pub fn new(symbols: &'a [u8]) -> Self
        ensures { BytesBegun symbols.entry.ref_ptr symbols.now result }
    {
        SymbolsToBytes { symbols, at: 0 }
    }

    pub fn next(&mut self) -> Option<u8>
        ensures { ByteGiven self.old result self.new }
    {
        if bytes_for_symbols(self.symbols) <= self.at {
            return None;
        }
        let byte = byte_at(&Plain, self.symbols, self.at);
        self.at += 1;
        Some(byte)
    }
}

impl<'a> Iterator for SymbolsToBytes<'a> {
    type Item = u8;

    ghost next_gives = { YieldsFirst bytes_left };

    ghost remaining = { item_count bytes_left };

    fn next(&mut self) -> Option<u8> {
        SymbolsToBytes::next(self)
    }

    fn size_hint(&self) -> (usize, Option<usize>)
        ensures lower { IsWithinCount result.0 (at_most (length (bytes_left self.now))) }
        ensures upper { IfSome result.1 (UpTo (at_most (length (bytes_left self.now)))) }
        ensures value { CountTold (bytes_left self.now) result }
    {
        let bytes = bytes_for_symbols(self.symbols).saturating_sub(self.at);
        (bytes, Some(bytes))
    }
}

// How a byte of a list stands for a symbol. It goes beside the list, as the list alone is what a caller lends.
trait Reading {
    ghost symbol_of: { ℕ → ℕ };

    fn read(&self, byte: u8) -> u8
        ensures { result ≡ symbol_of byte };
}

// It is the symbol.
struct Plain;

impl Reading for Plain {
    ghost symbol_of = { λ v. v };

    fn read(&self, byte: u8) -> u8 {
        byte
    }
}

// It is the symbol's character. The table of classes is taken once for all bytes.
impl Reading for Classes {
    ghost symbol_of = { symbol };

    fn read(&self, byte: u8) -> u8 {
        self.symbol(byte)
    }
}

// Writes so many values to the front of a buffer, each as the function gives it for its place.
fn write<F: Fn(usize) -> u8>(out: &mut [u8], count: usize, value: F) -> Result<usize, Refusal>
    requires { (at : ℕ) → at < count → F.pre value at }
    ensures { (list : List ℕ) → length list ≡ count → Gives (F.post value) list → Wrote list out.old result out.new }
{
    if out.len() < count {
        return Err(Refusal::RoomSmall);
    }
    let front = &mut out[..count];
    for (at, place) in front.iter_mut().enumerate() {
        *place = value(at);
    }
    Ok(count)
}

// The bits left over are low bits of the last symbol, unless there are too many of them.
fn padding_in<R: Reading>(reading: &R, list: &[u8]) -> Result<(), Refusal>
    ensures { result ≡ padding_verdict (map R.symbol_of list.now) }
{
    let Some(last) = list.last() else {
        return Ok(());
    };
    let left = list.len() % 8 * 5 % 8;
    if MAX_PADDING < left {
        return Err(Refusal::PaddingLong);
    }
    if reading.read(*last) % (1 << left) != 0 {
        return Err(Refusal::PaddingNotZero);
    }
    Ok(())
}

// Five bits that start in the byte `first` lie in two bytes. One function for this and byte_at, over both widths, would be no plainer: the windows differ.
fn symbol_at(bytes: &[u8], at: usize) -> u8
    requires { at < length (to_symbols bytes.now) }
    ensures { result ≡ get_or (to_symbols bytes.now) at 0 }
{
    let first = at / 8 * 5 + at % 8 * 5 / 8;
    let offset = at % 8 * 5 % 8;
    let window = u16::from(nth(&Plain, bytes, first)) * 256
        + u16::from(nth(&Plain, bytes, first + 1));
    ((window >> (11 - offset)) % 32) as u8
}

// Eight bits that start in the symbol `first` lie in three symbols.
#[tactic(auto, using(crate::proofs::Places::first_symbol_in))]
fn byte_at<R: Reading>(reading: &R, list: &[u8], at: usize) -> u8
    requires { at < length (to_bytes list.now) }
    ensures { result ≡ get_or (to_bytes (map R.symbol_of list.now)) at 0 }
{
    let first = at / 5 * 8 + at % 5 * 8 / 5;
    let offset = at % 5 * 8 % 5;
    let x = nth(reading, list, first) % 32;
    let y = nth(reading, list, first + 1) % 32;
    let z = nth(reading, list, first + 2) % 32;
    let window = u16::from(x) * 1024 + u16::from(y) * 32 + u16::from(z);
    ((window >> (7 - offset)) % 256) as u8
}

// Past the end stand zeros.
fn nth<R: Reading>(reading: &R, list: &[u8], at: usize) -> u8
    ensures { result ≡ get_or (map R.symbol_of list.now) at 0 }
{
    list.get(at).map_or(0, |byte| reading.read(*byte))
}
