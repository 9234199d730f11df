// Reading strings and addresses: document 01's module 9, first half. A string is looked at where it lies; what is handed back of it is a
// part of the caller's slice.
#![tactic(auto)]

mod scan;
mod symbols;

ghost use Rattle.std.specs.Prelude.{◌≡◌, ◌≤◌, length, MatchResult};
ghost use Rattle.checksum.specs.Parameters.{constant_for};
ghost use Rattle.answers.specs.Reading.{string_rules, reading_rules, data_part, payload};
ghost use Rattle.decode.specs.Asked.{address_split_rules, split_address, version_given, sum_verdict, program_in, judgement};
ghost use Rattle.decode.specs.Halves.{lengths_of, Halved};
ghost use Rattle.decode.specs.Promises.{WasRead, DataPartGiven, PrefixPartGiven, SymbolsRead, BytesRead, AddressChecked, AddressRead, WasSplit};

use answers::{Address, Parts};
use checksum::{CHECKSUM_LENGTH, CODE_LENGTH, Checksum, Engine};
use gf32::{has_both_cases, has_outside};
use numbers::Refusal;
use scan::{is_printable, joined, scan_data};
use symbols::put_symbols;

// A string taken apart where it lies: its prefix, and characters that stand after the separator.
#[derive(Clone, Copy)]
struct Halves<'a> {
    prefix: &'a [u8],
    characters: &'a [u8],
}

impl Halves<'_> {
    fn lengths(self) -> Parts
        ensures { result ≡ lengths_of self.entry }
    {
        Parts {
            prefix: self.prefix.len(),
            symbols: self.characters.len(),
        }
    }
}

// Generic reading: document 01's order 1 to 9.
#[tactic(auto, using(crate::proofs::Halving::read_accepted))]
pub fn read(checksum: Checksum, s: &[u8]) -> Result<Parts, Refusal>
    ensures { WasRead checksum s.now result }
{
    let halves = read_halves(checksum, s)?;
    Ok(halves.lengths())
}

// The data part with the checksum taken off, where it lies in the caller's slice; the empty part on a refusal.
pub fn data_part(checksum: Checksum, s: &[u8]) -> &[u8]
    ensures { DataPartGiven checksum s.entry.ref_ptr s.now result.ref_ptr result.now }
{
    match read_halves(checksum, s) {
        Ok(halves) => halves.characters,
        Err(_) => &s[..0],
    }
}

// The prefix, likewise. Two functions, as each half has a promise of its own; one over which half would be no plainer.
pub fn prefix_part(checksum: Checksum, s: &[u8]) -> &[u8]
    ensures { PrefixPartGiven checksum s.entry.ref_ptr s.now result.ref_ptr result.now }
{
    match read_halves(checksum, s) {
        Ok(halves) => halves.prefix,
        Err(_) => &s[..0],
    }
}

// Generic reading into symbols.
#[tactic(auto, using(crate::proofs::Rooms::symbols_refused))]
pub fn read_symbols(checksum: Checksum, s: &[u8], out: &mut [u8]) -> Result<usize, Refusal>
    ensures { SymbolsRead checksum s.now out.old result out.new }
{
    let halves = read_halves(checksum, s)?;
    put_symbols(halves.characters, out)
}

// Generic reading into bytes; bits left over at the end are dropped unlooked.
#[tactic(auto, using(crate::proofs::Rooms::bytes_refused))]
pub fn read_bytes(checksum: Checksum, s: &[u8], out: &mut [u8]) -> Result<usize, Refusal>
    ensures { BytesRead checksum s.now out.old result out.new }
{
    let halves = read_halves(checksum, s)?;
    iter::characters_to_bytes(halves.characters, out)
}

// Segwit reading with no buffer to write to: document 01's order, 10 and 1 to 6 and then what is asked of the parts.
#[tactic(auto, using(crate::proofs::Segwit::address_split_refused))]
pub fn check_address(s: &[u8]) -> Result<Address, Refusal>
    ensures { AddressChecked s.now result }
{
    let halves = address_halves(s)?;
    judge(halves)
}

// Segwit reading: the program, which starts after the version, goes into the lent buffer.
#[tactic(auto, using(crate::proofs::Rooms::address_refused, crate::proofs::Segwit::address_split_refused, crate::proofs::Judging::judged_enough))]
pub fn read_address(s: &[u8], out: &mut [u8]) -> Result<Address, Refusal>
    ensures { AddressRead s.now out.old result out.new }
{
    let halves = address_halves(s)?;
    let address = judge(halves)?;
    iter::characters_to_bytes(program_of(halves.characters), out)?;
    Ok(address)
}

// How long the prefix and the data part are of a string that 1 to 6 accept. The checksum is not looked at.
#[tactic(auto, using(crate::proofs::Halving::split_accepted))]
pub fn split(s: &[u8]) -> Result<Parts, Refusal>
    ensures { WasSplit s.now result }
{
    let halves = take_apart(s)?;
    Ok(halves.lengths())
}

// Answers 1 to 6: characters and prefix.
fn take_apart(s: &[u8]) -> Result<Halves, Refusal>
    ensures { MatchResult result
        (λ halves. Halved (string_rules s.now) s.entry.ref_ptr s.now (data_part s.now) halves)
        (λ refusal. WasSplit s.now (Err refusal)) }
{
    let table = gf32::classes();
    let tail = scan_data(&table, s);
    if has_outside(tail.classes) {
        return Err(Refusal::OutsideCharset);
    }
    // Without a separator there is no prefix.
    let prefix = &s[..tail.separator.unwrap_or(0)];
    if has_both_cases(joined(&table, prefix) | tail.classes) {
        return Err(Refusal::MixedCase);
    }
    let Some(separator) = tail.separator else {
        return Err(Refusal::NoSeparator);
    };
    if prefix.is_empty() {
        return Err(Refusal::PrefixEmpty);
    }
    if hrp::MAX_LENGTH < prefix.len() {
        return Err(Refusal::PrefixLong);
    }
    if !is_printable(prefix) {
        return Err(Refusal::PrefixByte);
    }
    Ok(Halves {
        prefix,
        characters: &s[separator + 1..],
    })
}

// Answers 1 to 9: then the length, and the checksum, which is taken off.
#[tactic(auto, using(crate::proofs::Asked::sum_enough))]
fn read_halves(checksum: Checksum, s: &[u8]) -> Result<Halves, Refusal>
    ensures { MatchResult result
        (λ halves. Halved (reading_rules (constant_for checksum) s.now) s.entry.ref_ptr s.now (payload s.now) halves)
        (λ refusal. WasRead checksum s.now (Err refusal)) }
{
    let halves = take_apart(s)?;
    if CODE_LENGTH < s.len() {
        return Err(Refusal::StringLong);
    }
    check(halves, checksum)?;
    let end = halves.characters.len() - CHECKSUM_LENGTH;
    Ok(Halves {
        prefix: halves.prefix,
        characters: &halves.characters[..end],
    })
}

// Answer 10, and then 1 to 6.
#[tactic(auto, using(crate::proofs::Segwit::halves_long))]
fn address_halves(s: &[u8]) -> Result<Halves, Refusal>
    ensures { MatchResult result
        (λ halves. Halved (address_split_rules s.now) s.entry.ref_ptr s.now (data_part s.now) halves)
        (λ refusal. Err refusal ≡ split_address s.now) }
{
    if segwit::MAX_STRING_LENGTH < s.len() {
        return Err(Refusal::AddressLong);
    }
    take_apart(s)
}

// What segwit reading asks of a prefix and of the characters after the separator, in document 01's order, in which 11 comes twice.
#[tactic(auto, using(crate::proofs::Asked::sum_enough))]
fn judge(halves: Halves) -> Result<Address, Refusal>
    ensures { result ≡ judgement halves.entry.prefix.now halves.entry.characters.now }
{
    let characters = halves.characters;
    // 11 and 12
    let version = version_of(characters)?;
    // 8 and 9
    check(halves, checksum::for_version(version))?;
    // 11 again, now that the checksum is off
    if characters.len() == CHECKSUM_LENGTH {
        return Err(Refusal::NoData);
    }
    let program = program_of(characters);
    // 13 and 14
    iter::padding_of_characters(program)?;
    // 15 and 16
    let length = iter::bytes_for_symbols(program);
    segwit::check_program_length(version, length)?;
    Ok(Address { version, length })
}

// Answers 11 and 12: the first character after the separator.
#[tactic(auto, unfolding(crate::specs::Asked::version_given, gf32::specs::Bytes::meaning, paper::specs::Charset::is_symbol))]
fn version_of(characters: &[u8]) -> Result<u8, Refusal>
    ensures { result ≡ version_given characters.now }
{
    let Some(&first) = characters.first() else {
        return Err(Refusal::NoData);
    };
    match gf32::from_byte(first) {
        Ok(version) if version <= segwit::MAX_VERSION => Ok(version),
        _ => Err(Refusal::VersionUnknown),
    }
}

// Answers 8 and 9: room for a checksum, and the checksum.
#[tactic(auto, using(crate::proofs::Asked::engine_came), unfolding(crate::specs::Asked::sum_verdict))]
fn check(halves: Halves, checksum: Checksum) -> Result<(), Refusal>
    ensures { result ≡ sum_verdict (constant_for checksum) halves.entry.prefix.now halves.entry.characters.now }
{
    if halves.characters.len() < CHECKSUM_LENGTH {
        return Err(Refusal::DataShort);
    }
    let engine = Engine::new()
        .input_prefix(halves.prefix)
        .input_characters(halves.characters);
    if engine.residue() != checksum::constant(checksum) {
        return Err(Refusal::ChecksumWrong);
    }
    Ok(())
}

// Between the version and the checksum.
#[tactic(auto, using(crate::proofs::Asked::program_there))]
fn program_of(characters: &[u8]) -> &[u8]
    requires { 7 ≤ length characters.now }
    ensures { result.now ≡ program_in characters.now }
{
    let end = characters.len() - CHECKSUM_LENGTH;
    &characters[1..end]
}
