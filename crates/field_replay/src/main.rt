// GF(1024) and its polynomials on fixed inputs, a line each: the inputs and the answers. What must come is in the file stdout, which the
// Rust wrote (tests/oracle/FIELDS.md).
#![tactic(auto)]

ghost use Rattle.std.specs.Prelude.{◌<◌, ◌≤◌};

use fieldvec::FieldVec;
use gf32_ext::{FIELD_ORDER, ROOT_GENERATOR};
use numbers::Refusal;
use std::fmt;

fn main(rt: HostRuntime) {
    for k in 0..1023 {
        field_line(&rt, k * 61 % FIELD_ORDER, k + 1);
    }
    for t in 0..140 {
        polynomial_line(&rt, t);
    }
}

fn field_line(rt: &impl Print, x: u32, y: u32) {
    let product = gf32_ext::multiply(x, y);
    let inverse = Answer(gf32_ext::inverse(y));
    let _ = println!(rt; " m {x} {y} {product} i {inverse}");
}

fn polynomial_line(rt: &impl Print, t: u32)
    requires { t < 140 }
{
    let p = polynomial_of(t, t % 7 + 1);
    let q = polynomial_of(t + 300, t / 7 % 7 + 1);
    let degree = Answer(polynomial::degree(&p));
    let leading_term = Answer(polynomial::leading_term(&p));
    let value = Answer(polynomial::evaluate(&p, (t * 53 + 9) % FIELD_ORDER));
    let derivative = Answer(polynomial::formal_derivative(&p).map(Listed));
    let product = Answer(polynomial::multiply_mod_x_d(&p, &q, (t % 11) as usize).map(Listed));
    let convolution = Answer(polynomial::convolution(&p, &q).map(Listed));
    let residue = Listed(polynomial::from_residue(t * 26843545 % 1073741824));
    let roots = Roots(p);
    let _ = print!(rt;
        " p {} {} d {degree} l {leading_term}",
        Listed(p),
        Listed(q)
    );
    let _ = print!(rt;
        " v {value} f {derivative} m {product} c {convolution} s {residue} r{roots}"
    );
    let _ = println!(rt; "");
}

// ---- the inputs

fn polynomial_of(t: u32, n: u32) -> FieldVec
    requires { (t < 440) × (n ≤ 7) }
{
    let mut coefficients = FieldVec::new();
    for i in 0..n {
        let _ = coefficients.push(coefficient(t, i));
    }
    coefficients
}

fn coefficient(t: u32, i: u32) -> u32
    requires { (t < 440) × (i < 7) }
{
    if (t + 2 * i) % 5 == 0 {
        return 0;
    }
    (t * 389 + i * 617 + (t + i) % 13 * 211 + 1) % FIELD_ORDER
}

// ---- the answers

// What is given, or the refusal's number after an x.
#[derive(Drop)]
struct Answer<T>(Result<T, Refusal>);

impl<T: fmt::Display> fmt::Display for Answer<T> {
    fn fmt<W: fmt::Write>(&self, f: &mut fmt::Formatter<W>) -> fmt::Result {
        match &self.0 {
            Ok(given) => write!(f, "{given}"),
            Err(refusal) => write!(f, "x {}", u8::from(*refusal)),
        }
    }
}

// How many elements, and the elements. No list here counts more than its capacity.
#[derive(Clone, Copy)]
struct Listed(FieldVec);

impl fmt::Display for Listed {
    fn fmt<W: fmt::Write>(&self, f: &mut fmt::Formatter<W>) -> fmt::Result {
        write!(f, "{}", self.0.len)?;
        for element in self.0.elements().unwrap_or(&[]) {
            write!(f, " {element}")?;
        }
        Ok(())
    }
}

// The exponents of the generator's powers that are roots.
#[derive(Clone, Copy)]
struct Roots(FieldVec);

impl fmt::Display for Roots {
    fn fmt<W: fmt::Write>(&self, f: &mut fmt::Formatter<W>) -> fmt::Result {
        let mut from = 0;
        while let Ok(Some(e)) = polynomial::first_root(&self.0, ROOT_GENERATOR, from) {
            write!(f, " {e}")?;
            from = e + 1;
        }
        Ok(())
    }
}
