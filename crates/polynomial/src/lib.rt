// Polynomials over GF(1024): a FieldVec's elements are the coefficients, the constant term first, and the empty list is the zero
// polynomial. A FieldVec whose count is over its capacity is refused with 26. An element is worked with as a u32; a polynomial that is
// made stores it as a u16, which loses nothing of it: each is below the field's order.
#![tactic(auto)]

ghost use Rattle.std.specs.Prelude.{◌≡◌, Ok, ◌++◌, ◌+◌, ◌-◌, ◌≤◌, ◌<◌, ◌%◌, ℕ, eqb, length, get_or, drop, replicate};
ghost use Rattle.laws.specs.Lists.{all};
ghost use Rattle.gf32_ext.specs.Field.{field_order, power};
ghost use Rattle.fieldvec.specs.Lists.{capacity, elements, listed};
ghost use Rattle.polynomial.specs.Polynomials.{degree, value_at, trimmed, multiple, MultipliesBy};
ghost use Rattle.polynomial.specs.Products.{coefficient, coefficients_from, product_modulo};
ghost use Rattle.polynomial.specs.Answers.{fitting, group_order, root_after};
ghost use Rattle.polynomial.specs.Promises.{DegreeGiven, LeadingGiven, ZeroAsked, Evaluated, Derived, Multiplied, Convolved, FromResidue, RootFound};

use fieldvec::{CAPACITY, FieldVec, narrowed};
use gf32_ext::FIELD_ORDER;
use numbers::Refusal;
use std::array;

// The order of the field's multiplicative group: exponents of a base below it give each of its powers.
const GROUP_ORDER: usize = FIELD_ORDER as usize - 1;

// Zero for the zero polynomial, the empty list included.
pub fn degree(p: &FieldVec) -> Result<usize, Refusal>
    ensures { DegreeGiven p.now result }
{
    Ok(degree_of(p.elements()?))
}

// The coefficient at the degree; zero for the zero polynomial.
pub fn leading_term(p: &FieldVec) -> Result<u32, Refusal>
    ensures { LeadingGiven p.now result }
{
    Ok(leading_of(p.elements()?))
}

// Whether zero is a root, that is whether the constant term is zero.
pub fn zero_is_root(p: &FieldVec) -> Result<bool, Refusal>
    ensures { ZeroAsked p.now result }
{
    Ok(coefficient_at(p.elements()?, 0) % FIELD_ORDER == 0)
}

pub fn evaluate(p: &FieldVec, x: u32) -> Result<u32, Refusal>
    ensures { Evaluated p.now x result }
{
    Ok(value_by(p.elements()?, |value| gf32_ext::multiply(x, value)))
}

pub fn formal_derivative(p: &FieldVec) -> Result<FieldVec, Refusal>
    ensures { Derived p.now result }
{
    let s = p.elements()?;
    Ok(trimmed_list(array::from_fn(|i| narrowed(multiple_of(i + 1, coefficient_at(s, i + 1))))))
}

// The product modulo x^d. It is too long only if its own coefficients, without zeros at the end, are more than a list has room for.
pub fn multiply_mod_x_d(p: &FieldVec, q: &FieldVec, d: usize) -> Result<FieldVec, Refusal>
    ensures { Multiplied p.now q.now d result }
{
    product_of(p.elements()?, q.elements()?, d)
}

// The coefficients of the product from p's degree on, as many as q's list is longer than that.
pub fn convolution(p: &FieldVec, q: &FieldVec) -> Result<FieldVec, Refusal>
    ensures { Convolved p.now q.now result }
{
    let a = p.elements()?;
    let b = q.elements()?;
    let d = degree_of(a);
    if b.len() <= d {
        return Ok(FieldVec {
            items: [0; CAPACITY],
            len: 1,
        });
    }
    let n = b.len() - d;
    Ok(FieldVec {
        items: coefficients_from(a, b, d, n),
        len: n,
    })
}

// A checksum's residue as a polynomial: its lowest symbol is the constant term.
pub fn from_residue(residue: u32) -> FieldVec
    ensures { FromResidue residue result }
{
    let items = array::from_fn(|i| if i < 6 {
        low_symbol(residue >> (5 * i))
    } else {
        0
    });
    FieldVec { items, len: 6 }
}

// The first exponent from `from` on, below the group's order, whose power of the base is a root.
pub fn first_root(p: &FieldVec, base: u32, from: usize) -> Result<Option<usize>, Refusal>
    ensures { RootFound p.now base from result }
{
    p.elements()?;
    if base % FIELD_ORDER == 0 {
        return Err(Refusal::DivisionByZero);
    }
    if GROUP_ORDER <= from {
        return Ok(None);
    }
    root_from(p, base, from)
}

// ---- one polynomial

fn coefficient_at(s: &[u16], k: usize) -> u32
    ensures { result ≡ get_or s.now k 0 }
{
    s.get(k).map_or(0, |c| u32::from(*c))
}

fn degree_of(s: &[u16]) -> usize
    ensures { result ≡ degree s.now }
{
    s.iter()
        .rposition(|c| u32::from(*c) % FIELD_ORDER != 0)
        .unwrap_or(0)
}

fn leading_of(s: &[u16]) -> u32
    ensures { result ≡ get_or s.now (degree s.now) 0 % field_order }
{
    coefficient_at(s, degree_of(s)) % FIELD_ORDER
}

// Horner's rule, from the highest coefficient down: the value at the x by which `times_x` multiplies.
fn value_by<F: Fn(u32) -> u32>(s: &[u16], times_x: F) -> u32
    requires { F.IsAlwaysCallable times_x }
    ensures { (x : ℕ) → MultipliesBy (F.post times_x) x → result ≡ value_at s.now x }
{
    let mut value = 0;
    for c in s.iter().rev() {
        value = gf32_ext::add(times_x(value), u32::from(*c));
    }
    value
}

// In characteristic 2 an even number of times is zero.
fn multiple_of(n: usize, c: u32) -> u32
    ensures { result ≡ multiple n c }
{
    if n % 2 == 0 { 0 } else { c % FIELD_ORDER }
}

fn trimmed_list(items: [u16; CAPACITY]) -> FieldVec
    ensures { result ≡ listed (trimmed items) }
{
    let len = items
        .iter()
        .rposition(|c| *c != 0)
        .map_or(0, |last| last + 1);
    FieldVec { items, len }
}

fn low_symbol(x: u32) -> u16
    ensures { result ≡ x % 32 }
{
    (x % 32) as u16
}

// ---- two polynomials, each by the slice that it shows: a struct of both would be made for one call and taken apart in it

fn coefficient_of(a: &[u16], b: &[u16], k: usize) -> u32
    ensures { result ≡ coefficient a.now b.now k }
{
    let mut total = 0;
    for i in 0..=k {
        let crossed = gf32_ext::multiply(coefficient_at(a, i), coefficient_at(b, k - i));
        total = gf32_ext::add(total, crossed);
    }
    total
}

// The coefficients of x^d and after it, n of them, and zeros.
fn coefficients_from(a: &[u16], b: &[u16], d: usize, n: usize) -> [u16; CAPACITY]
    requires { (d ≤ capacity) × (n ≤ capacity) }
    ensures { result ≡ coefficients_from a.now b.now d n ++ replicate (capacity - n) 0 }
{
    array::from_fn(|j| if j < n {
        narrowed(coefficient_of(a, b, d + j))
    } else {
        0
    })
}

// Whether all coefficients for which a list has no room, of the first n, are zero.
fn rest_is_zero(a: &[u16], b: &[u16], n: usize) -> bool
    ensures { result ≡ all (λ c. eqb c 0) (drop capacity (coefficients_from a.now b.now 0 n)) }
{
    (CAPACITY..n).all(|k| coefficient_of(a, b, k) == 0)
}

fn product_of(a: &[u16], b: &[u16], d: usize) -> Result<FieldVec, Refusal>
    ensures { result ≡ fitting (product_modulo a.now b.now d) }
{
    let n = d.min(a.len() + b.len());
    if rest_is_zero(a, b, n) {
        Ok(trimmed_list(coefficients_from(a, b, 0, n.min(CAPACITY))))
    } else {
        Err(Refusal::ListFull)
    }
}

// ---- the search for a root (Chien): the terms c_i x^i at x = base^e are kept, and each is multiplied by base^i for the next exponent

// That p counts within its capacity is asked, since first_root has to refuse a count over it before it looks at the base.
fn root_from(p: &FieldVec, base: u32, from: usize) -> Result<Option<usize>, Refusal>
    requires { (p.now.len ≤ capacity) × (from < group_order) }
    ensures { result ≡ Ok (root_after (elements p.now) base from) }
{
    let step = fieldvec::powers(base, p.len)?;
    let start = fieldvec::powers(power_of(base, from), p.len)?;
    let mut terms = *p;
    terms.multiply_pointwise(&start)?;
    for e in from..GROUP_ORDER {
        if total_of(terms.elements()?) == 0 {
            return Ok(Some(e));
        }
        terms.multiply_pointwise(&step)?;
    }
    Ok(None)
}

// The sum of the terms, which is the value at 1.
fn total_of(s: &[u16]) -> u32
    ensures { result ≡ value_at s.now 1 }
{
    value_by(s, |value| value)
}

// By halves: with one factor a turn, up to 1022 products stand before a search that starts late.
fn power_of(base: u32, n: usize) -> u32
    ensures { result ≡ power base n }
{
    if n == 0 {
        return 1;
    }
    let half = power_of(base, n / 2);
    let even = gf32_ext::multiply(half, half);
    if n % 2 == 0 {
        even
    } else {
        gf32_ext::multiply(base, even)
    }
}
