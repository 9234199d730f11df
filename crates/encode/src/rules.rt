// The orders of refusal for writers. Nothing is written here: the buffer comes in by its length alone.
ghost use Rattle.std.specs.Prelude.{◌≡◌, ℕ, ◌+◌, ◌≤◌, ◌<◌, length, ltb};
ghost use Rattle.std.specs.List.{list_any};
ghost use Rattle.answers.specs.Writing.{symbol_large, write_verdict, write_bytes_verdict, write_address_verdict};
ghost use Rattle.encode.specs.Sizes.{size_verdict};

use checksum::{CHECKSUM_LENGTH, CODE_LENGTH};
use numbers::Refusal;
use segwit::MAX_STRING_LENGTH;

// How long a string may be, and what refuses a longer one.
#[derive(Clone, Copy)]
struct Limit {
    most: usize,
    too_long: Refusal,
}

const STRING: Limit = Limit {
    most: CODE_LENGTH,
    too_long: Refusal::StringLong,
};

const ADDRESS: Limit = Limit {
    most: MAX_STRING_LENGTH,
    too_long: Refusal::AddressLong,
};

// Prefix, 18, 7, 17. The constant does not matter: the two checksums are equally long.
#[tactic(auto, using(crate::proofs::Orders::symbols_order, crate::proofs::Orders::prefix_short, crate::proofs::Large::large_listed))]
pub(crate) fn symbols_verdict(prefix: &[u8], symbols: &[u8], room: usize) -> Result<usize, Refusal>
    ensures { (constant : ℕ) → result ≡ write_verdict constant prefix.now symbols.now room }
{
    hrp::check(prefix)?;
    if has_large(symbols) {
        return Err(Refusal::SymbolLarge);
    }
    STRING.size(prefix.len(), symbols.len(), room)
}

// The same for the symbols of bytes, none of which is over 31.
#[tactic(auto, using(crate::proofs::Orders::bytes_order, crate::proofs::Orders::prefix_short))]
pub(crate) fn bytes_verdict(prefix: &[u8], bytes: &[u8], room: usize) -> Result<usize, Refusal>
    ensures { (constant : ℕ) → result ≡ write_bytes_verdict constant prefix.now bytes.now room }
{
    hrp::check(prefix)?;
    STRING.size(prefix.len(), iter::symbols_for_bytes(bytes), room)
}

// Prefix, 12, 15, 16, 10, 17.
#[tactic(auto, using(crate::proofs::Orders::address_order, crate::proofs::Orders::prefix_short, iter::proofs::Lengths::symbols_length))]
pub(crate) fn address_verdict(
    prefix: &[u8],
    version: u8,
    program: &[u8],
    room: usize,
) -> Result<usize, Refusal>
    ensures { result ≡ write_address_verdict prefix.now version program.now room }
{
    hrp::check(prefix)?;
    segwit::check_version(version)?;
    segwit::check_program_length(version, program.len())?;
    ADDRESS.size(prefix.len(), 1 + iter::symbols_for_bytes(program), room)
}

fn has_large(symbols: &[u8]) -> bool
    ensures { result ≡ list_any (λ v. ltb 31 v) symbols.now }
{
    symbols.iter().any(|&symbol| 31 < symbol)
}

impl Limit {
    // The length of the whole: prefix, separator, symbols, checksum. The limit is compared without a sum, which could overflow.
    #[tactic(auto, unfolding(crate::specs::Sizes::size_verdict))]
    fn size(self, prefix: usize, symbols: usize, room: usize) -> Result<usize, Refusal>
        requires { (prefix ≤ 83) × (90 ≤ self.most) }
        ensures { result ≡ size_verdict self.most self.too_long room (prefix + 7 + symbols) }
    {
        let around = prefix + 1 + CHECKSUM_LENGTH;
        if self.most - around < symbols {
            return Err(self.too_long);
        }
        let length = around + symbols;
        if room < length {
            return Err(Refusal::RoomSmall);
        }
        Ok(length)
    }
}
