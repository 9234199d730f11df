// Writing strings and addresses, document 01's module 9. A writer settles its answer before it touches the buffer; it writes lower case.
#![tactic(auto)]

mod fill;
mod rules;

ghost use Rattle.encode.specs.Promises.{SymbolsWritten, BytesWritten, AddressWritten, Version0Written, Version1Written, LengthGiven, AddressLengthGiven};

use checksum::{CODE_LENGTH, Checksum};
use fill::{Frame, put_address};
use numbers::Refusal;
use rules::{address_verdict, bytes_verdict, symbols_verdict};
use segwit::{MAX_STRING_LENGTH, VERSION_0, VERSION_1};

// Generic writing of symbols.
pub fn write_symbols(
    checksum: Checksum,
    prefix: &[u8],
    symbols: &[u8],
    out: &mut [u8],
) -> Result<usize, Refusal>
    ensures { SymbolsWritten checksum prefix.now symbols.now out.old result out.new }
{
    let length = symbols_verdict(prefix, symbols, out.len())?;
    Frame { checksum, prefix }.put_symbols(symbols, &mut out[..length]);
    Ok(length)
}

// Generic writing of bytes: of their symbols. As in the other writers the answer comes first; what is laid then differs (fill says why by three
// functions).
pub fn write_bytes(
    checksum: Checksum,
    prefix: &[u8],
    bytes: &[u8],
    out: &mut [u8],
) -> Result<usize, Refusal>
    ensures { BytesWritten checksum prefix.now bytes.now out.old result out.new }
{
    let length = bytes_verdict(prefix, bytes, out.len())?;
    Frame { checksum, prefix }.put_bytes(bytes, &mut out[..length]);
    Ok(length)
}

// Segwit writing: the version is the first symbol, and says which checksum. Prefix, version and program come one by one, as every caller has them.
pub fn write_address(
    prefix: &[u8],
    version: u8,
    program: &[u8],
    out: &mut [u8],
) -> Result<usize, Refusal>
    ensures { AddressWritten prefix.now version program.now out.old result out.new }
{
    let length = address_verdict(prefix, version, program, out.len())?;
    put_address(prefix, version, program, &mut out[..length]);
    Ok(length)
}

// The two versions that have names of their own, each with its promise.
pub fn write_address_v0(prefix: &[u8], program: &[u8], out: &mut [u8]) -> Result<usize, Refusal>
    ensures { Version0Written prefix.now program.now out.old result out.new }
{
    write_address(prefix, VERSION_0, program, out)
}

pub fn write_address_v1(prefix: &[u8], program: &[u8], out: &mut [u8]) -> Result<usize, Refusal>
    ensures { Version1Written prefix.now program.now out.old result out.new }
{
    write_address(prefix, VERSION_1, program, out)
}

// What write_bytes answers where there is room for the longest string; the two checksums are equally long.
pub fn encoded_length(prefix: &[u8], bytes: &[u8]) -> Result<usize, Refusal>
    ensures { LengthGiven prefix.now bytes.now result }
{
    bytes_verdict(prefix, bytes, CODE_LENGTH)
}

// What write_address answers where there is room for the longest address.
pub fn encoded_address_length(prefix: &[u8], version: u8, program: &[u8]) -> Result<usize, Refusal>
    ensures { AddressLengthGiven prefix.now version program.now result }
{
    address_verdict(prefix, version, program, MAX_STRING_LENGTH)
}
