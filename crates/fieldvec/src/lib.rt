// A short list of elements of GF(1024): a fixed array with a count. An element is worked with as a u32 and stored as a u16, by its
// remainder modulo the field's order, and that loses nothing of it (proofs/Stored.antt). A symbol of GF(32) is the same number in
// GF(1024), so one list serves both.
#![tactic(auto)]

ghost use Rattle.std.specs.Prelude.{◌≡◌, ◌<◌, ◌≤◌, ◌%◌, get_or, reverse};
ghost use Rattle.gf32_ext.specs.Field.{field_order, product, power};
ghost use Rattle.laws.specs.Lists.{table};
ghost use Rattle.fieldvec.specs.Lists.{capacity, listed, alike};
ghost use Rattle.fieldvec.specs.Promises.{Emptied, Shown, Pushed, PoppedBack, PoppedFront, Got, Lifted, MultipliedPointwise, PowersGiven, Reversed, Compared, Narrowed};

use gf32_ext::FIELD_ORDER;
use numbers::Refusal;
use std::array;

// How many elements a list has room for.
pub const CAPACITY: usize = 7;

// The first `len` of the stored numbers are the list: an array with a count, since there is no heap. The fields are public, so `len` may be
// over the capacity: push then answers that the list is full, and every other function refuses it as a place outside. No ghost field rules
// that out, since callers may pass such a list and are promised the refusal.
#[derive(Clone, Copy)]
pub struct FieldVec {
    pub items: [u16; CAPACITY],
    pub len: usize,
}

impl FieldVec {
    pub fn new() -> FieldVec
        ensures { Emptied result }
    {
        FieldVec {
            items: [0; CAPACITY],
            len: 0,
        }
    }

    // The stored numbers, where they lie.
    #[tactic(auto, unfolding(crate::specs::Lists::shown))]
    pub fn elements(&self) -> Result<&[u16], Refusal>
        ensures { Shown self.now self.entry.ref_ptr result }
    {
        if CAPACITY < self.len {
            return Err(Refusal::ListPlace);
        }
        Ok(&self.items[..self.len])
    }

    pub fn push(&mut self, element: u32) -> Result<(), Refusal>
        ensures { Pushed self.old element result self.new }
    {
        let at = self.len;
        if CAPACITY <= at {
            return Err(Refusal::ListFull);
        }
        self.items[at] = narrowed(element);
        self.len = at + 1;
        Ok(())
    }

    // The place that the element leaves becomes zero.
    pub fn pop(&mut self) -> Result<u32, Refusal>
        ensures { PoppedBack self.old result self.new }
    {
        let Some((last, rest)) = self.elements()?.split_last() else {
            return Err(Refusal::ListPlace);
        };
        let value = widened(*last);
        let at = rest.len();
        self.items[at] = 0;
        self.len = at;
        Ok(value)
    }

    pub fn pop_front(&mut self) -> Result<u32, Refusal>
        ensures { PoppedFront self.old result self.new }
    {
        let Some((first, rest)) = self.elements()?.split_first() else {
            return Err(Refusal::ListPlace);
        };
        let value = widened(*first);
        let items = array::from_fn(|i| stored_at(rest, i));
        *self = FieldVec {
            items,
            len: rest.len(),
        };
        Ok(value)
    }

    pub fn get(&self, at: usize) -> Result<u32, Refusal>
        ensures { Got self.now at result }
    {
        match self.elements()?.get(at) {
            Some(element) => Ok(widened(*element)),
            None => Err(Refusal::ListPlace),
        }
    }

    pub fn multiply_pointwise(&mut self, other: &FieldVec) -> Result<(), Refusal>
        ensures { MultipliedPointwise self.old other.now result self.new }
    {
        let factors = other.elements()?;
        let elements = self.elements()?;
        if elements.len() != factors.len() {
            return Err(Refusal::ListPlace);
        }
        let items = array::from_fn(|i| product_at(elements, factors, i));
        *self = FieldVec {
            items,
            len: elements.len(),
        };
        Ok(())
    }

    // What lies past the count becomes zero.
    pub fn reverse(&mut self) -> Result<(), Refusal>
        ensures { Reversed self.old result self.new }
    {
        let elements = self.elements()?;
        let items = array::from_fn(|i| reversed_at(elements, i));
        *self = FieldVec {
            items,
            len: elements.len(),
        };
        Ok(())
    }

    // Lists are the same if they have the same elements; what lies past their counts does not matter.
    pub fn equal(&self, other: &FieldVec) -> Result<bool, Refusal>
        ensures { Compared self.now other.now result }
    {
        Ok(matches(self.elements()?, other.elements()?))
    }
}

// Symbols as elements of GF(1024): each is the same number there.
pub fn lift(symbols: &[u8]) -> Result<FieldVec, Refusal>
    ensures { Lifted symbols.now result }
{
    if CAPACITY < symbols.len() {
        return Err(Refusal::ListFull);
    }
    let items = array::from_fn(|i| symbols.get(i).map_or(0, |symbol| u16::from(*symbol % 32)));
    Ok(FieldVec {
        items,
        len: symbols.len(),
    })
}

// The first n powers of an element, from its power 0, which is 1.
#[tactic(auto, unfolding(crate::specs::Lists::powers_given))]
pub fn powers(base: u32, n: usize) -> Result<FieldVec, Refusal>
    ensures { PowersGiven base n result }
{
    if CAPACITY < n {
        return Err(Refusal::ListFull);
    }
    Ok(first_powers(base, n))
}

// An element in the form in which it is stored.
pub fn narrowed(element: u32) -> u16
    ensures { Narrowed element result }
{
    (element % FIELD_ORDER) as u16
}

fn widened(stored: u16) -> u32
    ensures { result ≡ stored % field_order }
{
    u32::from(stored) % FIELD_ORDER
}

fn product(x: u16, y: u16) -> u16
    ensures { result ≡ product x y }
{
    narrowed(gf32_ext::multiply(u32::from(x), u32::from(y)))
}

// Past the ends stand zeros, whose product is zero and is not worked out.
fn product_at(s: &[u16], t: &[u16], at: usize) -> u16
    ensures { result ≡ product (get_or s.now at 0) (get_or t.now at 0) }
{
    s.get(at).zip(t.get(at)).map_or(0, |(x, y)| product(*x, *y))
}

// Past the end stand zeros.
fn stored_at(s: &[u16], at: usize) -> u16
    ensures { result ≡ get_or s.now at 0 }
{
    s.get(at).map_or(0, |stored| *stored)
}

// The same from the other end.
fn reversed_at(s: &[u16], at: usize) -> u16
    ensures { result ≡ get_or (reverse s.now) at 0 }
{
    if at < s.len() { s[s.len() - 1 - at] } else { 0 }
}

fn first_powers(base: u32, n: usize) -> FieldVec
    requires { n ≤ capacity }
    ensures { result ≡ listed (table (power base) n) }
{
    let mut items = [0; CAPACITY];
    let front = &mut items[..n];
    let mut next = 1;
    for item in front.iter_mut() {
        *item = narrowed(next);
        next = gf32_ext::multiply(base, next);
    }
    FieldVec { items, len: n }
}

fn matches(s: &[u16], t: &[u16]) -> bool
    ensures { result ≡ alike s.now t.now }
{
    s.len() == t.len() && s.iter().zip(t).all(|(x, y)| widened(*x) == widened(*y))
}
