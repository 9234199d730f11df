// Segwit's rules on the witness version and on the program's length: BIP-173, "Segwit address format".
#![tactic(auto)]

ghost use Rattle.std.specs.Prelude.{◌≡◌};
ghost use Rattle.segwit.specs.Promises.{VersionChecked, ProgramLengthChecked};

use numbers::Refusal;

// The longest address, in bytes.
pub const MAX_STRING_LENGTH: usize = 90;

pub const VERSION_0: u8 = 0;

// Taproot.
pub const VERSION_1: u8 = 1;

pub const MAX_VERSION: u8 = 16;

pub const MIN_PROGRAM_LENGTH: usize = 2;

pub const MAX_PROGRAM_LENGTH: usize = 40;

// Version 0 has programs of two lengths: the hash of a public key, and the hash of a script.
pub const KEY_HASH_LENGTH: usize = 20;

pub const SCRIPT_HASH_LENGTH: usize = 32;

// Any number is asked, also one over 31 that no symbol stands for.
#[tactic(auto, unfolding(answers::specs::Rules::version_verdict))]
pub fn check_version(version: u8) -> Result<(), Refusal>
    ensures { VersionChecked version result }
{
    if MAX_VERSION < version {
        return Err(Refusal::VersionUnknown);
    }
    Ok(())
}

// The length rules alone: a version over 16 is not refused here.
#[tactic(auto, unfolding(answers::specs::Rules::length_verdict))]
pub fn check_program_length(version: u8, length: usize) -> Result<(), Refusal>
    ensures { ProgramLengthChecked version length result }
{
    if !(MIN_PROGRAM_LENGTH..=MAX_PROGRAM_LENGTH).contains(&length) {
        return Err(Refusal::ProgramLength);
    }
    if version == VERSION_0 && !matches!(length, KEY_HASH_LENGTH | SCRIPT_HASH_LENGTH) {
        return Err(Refusal::ProgramLengthVersion0);
    }
    Ok(())
}

// The two numbers that other crates use, held to the papers here.
fn max_string_length() -> usize
    ensures { result ≡ 90 }
{
    MAX_STRING_LENGTH
}

fn taproot() -> u8
    ensures { result ≡ 1 }
{
    VERSION_1
}
