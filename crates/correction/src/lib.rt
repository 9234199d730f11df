// The place of one changed symbol: document 01's module 10. BIP-173 has a place suggested and never what belongs there, so only the place
// comes out. No list of changes and no shift register: one change is all that is looked for.
#![tactic(auto)]

ghost use Rattle.std.specs.Prelude.{◌≡◌, [], ◌∷◌, map, ◌^◌, ◌≤◌, ◌<◌, Ok, length, ok_or};
ghost use Rattle.numbers.specs.declared.Refusal.TheVariants.{NoSinglePlace};
ghost use Rattle.paper.specs.Charset.{symbol};
ghost use Rattle.paper.specs.Checksum.{residue};
ghost use Rattle.answers.specs.Reading.{prefix_part, data_part};
ghost use Rattle.gf32_ext.specs.Field.{field_order, power};
ghost use Rattle.checksum.specs.Parameters.{constant_for};
ghost use Rattle.decode.specs.Splitting.{split_verdict};
ghost use Rattle.fieldvec.specs.Lists.{capacity, elements, listed};
ghost use Rattle.polynomial.specs.Polynomials.{value_at};
ghost use Rattle.correction.specs.Locator.{place_verdict};
ghost use Rattle.correction.specs.Values.{ValuesOf};
ghost use Rattle.correction.specs.Promises.{WasLocated};

use answers::Parts;
use checksum::{Checksum, Engine};
use fieldvec::{FieldVec, narrowed};
use gf32_ext::ROOT_GENERATOR;
use numbers::Refusal;

// The generator's three roots that follow one another: these powers of ROOT_GENERATOR.
const ROOT_24: u32 = 780;

const ROOT_25: u32 = 878;

const ROOT_26: u32 = 966;

// What parts a residue from the constant, as a polynomial: its values at the three roots.
#[derive(Clone, Copy)]
struct Values {
    at_24: u32,
    at_25: u32,
    at_26: u32,
}

// For a string that generic reading refuses for its checksum: the one place, counted from the end, at which another symbol would give
// the accepting residue. It may lie before the string's data part.
#[tactic(auto, unfolding(crate::specs::Locator::locate_verdict))]
pub fn locate(checksum: Checksum, s: &[u8]) -> Result<usize, Refusal>
    ensures { WasLocated checksum s.now result }
{
    let parts = decode::split(s)?;
    match decode::read(checksum, s) {
        Ok(_) => Err(Refusal::NoSinglePlace),
        Err(Refusal::ChecksumWrong) => {
            place_of(residue_of(s, parts), checksum).ok_or(Refusal::NoSinglePlace)
        }
        Err(refusal) => Err(refusal),
    }
}

// The residue of a string that was taken apart.
fn residue_of(s: &[u8], parts: Parts) -> u32
    requires apart { Ok parts ≡ split_verdict s.now }
    requires inside { parts.prefix < length s.now }
    ensures value { result ≡ residue (prefix_part s.now) (map symbol (data_part s.now)) }
    ensures bounded { result < 2 ^ 30 }
{
    let prefix = parts.prefix;
    let start = prefix + 1;
    let engine = Engine::new()
        .input_prefix(&s[..prefix])
        .input_characters(&s[start..]);
    engine.residue()
}

// One change e at place p has the values e X^24, e X^25 and e X^26 at the roots, where X is the power p of ROOT_GENERATOR. So the values
// have one ratio X, and what is left of the first without X^24 must be a symbol: the Rust takes that for granted and panics.
fn place_of(residue: u32, checksum: Checksum) -> Option<usize>
    requires { residue < 2 ^ 30 }
    ensures { ok_or result NoSinglePlace ≡ place_verdict (constant_for checksum) residue }
{
    let values = values_of(residue, checksum);
    let ratio = gf32_ext::divide(values.at_25, values.at_24).ok()?;
    if gf32_ext::multiply(ratio, values.at_25) != values.at_26 {
        return None;
    }
    let change = gf32_ext::divide(values.at_24, power_24(ratio)).ok()?;
    if 31 < change {
        return None;
    }
    polynomial::first_root(&with_root(ratio), ROOT_GENERATOR, 0).unwrap()
}

fn values_of(residue: u32, checksum: Checksum) -> Values
    ensures { ValuesOf residue (constant_for checksum) result }
{
    let difference = polynomial::from_residue(residue ^ checksum::constant(checksum));
    Values {
        at_24: value_at(&difference, ROOT_24),
        at_25: value_at(&difference, ROOT_25),
        at_26: value_at(&difference, ROOT_26),
    }
}

fn value_at(p: &FieldVec, x: u32) -> u32
    requires { p.now.len ≤ capacity }
    ensures { result ≡ value_at (elements p.now) x }
{
    polynomial::evaluate(p, x).unwrap()
}

fn power_24(x: u32) -> u32
    ensures { result ≡ power x 24 }
{
    let cube = gf32_ext::multiply(gf32_ext::multiply(x, x), x);
    let sixth = gf32_ext::multiply(cube, cube);
    let twelfth = gf32_ext::multiply(sixth, sixth);
    gf32_ext::multiply(twelfth, twelfth)
}

// x + z as a polynomial in z, of which x is the root. The Rust searches for the root of 1 + x z, whose exponent is the place taken from 1023.
fn with_root(x: u32) -> FieldVec
    requires { x < field_order }
    ensures { result ≡ listed (x ∷ 1 ∷ []) }
{
    FieldVec {
        items: [narrowed(x), 1, 0, 0, 0, 0, 0],
        len: 2,
    }
}
