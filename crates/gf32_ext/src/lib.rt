// GF(1024), the extension of GF(32) in which the roots of the checksum's generator lie. The element a0 + a1 e, with e^2 = e + 1, is
// the number a0 + 32 a1; a larger number counts by its remainder modulo the field's order. An element in hand is a u32; where many are
// kept (fieldvec), each is stored as a u16.
#![tactic(auto)]

ghost use Rattle.std.specs.Prelude.{◌≡◌};
ghost use Rattle.gf32_ext.specs.Field.{low, high, packed};
ghost use Rattle.gf32_ext.specs.Roots.{root_generator};
ghost use Rattle.gf32_ext.specs.Promises.{Added, Multiplied, Inverted, Divided};

use numbers::Refusal;

// How many elements the field has.
pub const FIELD_ORDER: u32 = 1024;

// 1 + 6e, of order 1023. Its powers 24, 25 and 26 are roots of the checksum's generator.
pub const ROOT_GENERATOR: u32 = 193;

pub fn add(x: u32, y: u32) -> u32
    ensures { Added x y result }
{
    (x % FIELD_ORDER) ^ (y % FIELD_ORDER)
}

pub fn multiply(x: u32, y: u32) -> u32
    ensures { Multiplied x y result }
{
    let x0 = low_of(x);
    let x1 = high_of(x);
    let y0 = low_of(y);
    let y1 = high_of(y);
    // the product x1 y1 stands at e^2, which is e + 1
    let squared = gf32::multiply(x1, y1);
    let single = gf32::add(gf32::multiply(x0, y1), gf32::multiply(x1, y0));
    pack(
        gf32::add(gf32::multiply(x0, y0), squared),
        gf32::add(single, squared),
    )
}

// The conjugate over the norm: (a0 + a1 e)(a0 + a1 + a1 e) is a0^2 + a0 a1 + a1^2, which lies in GF(32) and is zero for zero alone.
pub fn inverse(y: u32) -> Result<u32, Refusal>
    ensures { Inverted y result }
{
    let y0 = low_of(y);
    let y1 = high_of(y);
    let both = gf32::add(y0, y1);
    let norm = gf32::add(gf32::multiply(y0, both), gf32::multiply(y1, y1));
    let scale = gf32::divide(1, norm)?;
    Ok(pack(gf32::multiply(both, scale), gf32::multiply(y1, scale)))
}

// Every zero divisor is refused, also where zero is divided.
pub fn divide(x: u32, y: u32) -> Result<u32, Refusal>
    ensures { Divided x y result }
{
    Ok(multiply(x, inverse(y)?))
}

fn low_of(x: u32) -> u8
    ensures { result ≡ low x }
{
    (x % 32) as u8
}

fn high_of(x: u32) -> u8
    ensures { result ≡ high x }
{
    (x / 32 % 32) as u8
}

fn pack(a0: u8, a1: u8) -> u32
    ensures { result ≡ packed a0 a1 }
{
    u32::from(a0) + 32 * u32::from(a1)
}

// The constant is the paper's element; nothing else here names it.
fn root_generator() -> u32
    ensures { result ≡ root_generator }
{
    ROOT_GENERATOR
}
