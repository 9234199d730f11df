// What the crates below answer, asked of the code of a checksum: an unknown code is refused first. Each function is there for its `?`, which a function
// that gives C a number has no place for.
#![tactic(auto, using(crate::proofs::Codes::known_code, crate::proofs::Codes::other_code), unfolding(answers::specs::Writing::write_bytes_verdict))]

ghost use Rattle.std.specs.Prelude.{◌≡◌};
ghost use Rattle.paper.specs.Bits.{to_symbols};
ghost use Rattle.face.specs.Codes.{checksum_coded, coded_read, coded_locate, CodedBytes, CodedWritten};

use answers::Parts;
use checksum::Checksum;
use numbers::Refusal;

const BECH32: u8 = 1;

const BECH32M: u8 = 2;

fn checksum_of(code: u8) -> Result<Checksum, Refusal>
    ensures { result ≡ checksum_coded code }
{
    match code {
        BECH32 => Ok(Checksum::Bech32),
        BECH32M => Ok(Checksum::Bech32m),
        _ => Err(Refusal::ChecksumUnknown),
    }
}

pub(crate) fn read(code: u8, s: &[u8]) -> Result<Parts, Refusal>
    ensures { result ≡ coded_read code s.now }
{
    decode::read(checksum_of(code)?, s)
}

pub(crate) fn locate(code: u8, s: &[u8]) -> Result<usize, Refusal>
    ensures { result ≡ coded_locate code s.now }
{
    correction::locate(checksum_of(code)?, s)
}

pub(crate) fn read_bytes(code: u8, s: &[u8], out: &mut [u8]) -> Result<usize, Refusal>
    ensures { CodedBytes code s.now out.old result out.new }
{
    decode::read_bytes(checksum_of(code)?, s, out)
}

pub(crate) fn write_symbols(
    code: u8,
    prefix: &[u8],
    symbols: &[u8],
    out: &mut [u8],
) -> Result<usize, Refusal>
    ensures { CodedWritten code prefix.now symbols.now out.old result out.new }
{
    encode::write_symbols(checksum_of(code)?, prefix, symbols, out)
}

pub(crate) fn write_bytes(
    code: u8,
    prefix: &[u8],
    bytes: &[u8],
    out: &mut [u8],
) -> Result<usize, Refusal>
    ensures { CodedWritten code prefix.now (to_symbols bytes.now) out.old result out.new }
{
    encode::write_bytes(checksum_of(code)?, prefix, bytes, out)
}
