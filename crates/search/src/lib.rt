// The four-error search: is there a change of 1 to 4 symbols within a window that the checksum does not see? It walks down the window's
// places and holds one residue for each change, so the scratch is wiped and never read.
#![tactic(auto)]

ghost use Rattle.std.specs.Prelude.{◌≡◌, [], ◌∷◌, ◌≤◌, length, replicate};
ghost use Rattle.paper.specs.Checksum.{step};
ghost use Rattle.search.specs.Patterns.{change, pattern_of};
ghost use Rattle.search.specs.Walk.{WalkAsked, Walked, TryAsked, Tried, Spent, in_front};
ghost use Rattle.search.specs.Outcome.{outcome};
ghost use Rattle.search.specs.Promises.{Searched};

use checksum::Engine;
use numbers::Refusal;

const LARGEST_WINDOW: usize = 128;

const SCRATCH_WORDS: usize = 65536;

// A pattern has at most 4 changes, and one of them stands at the highest place.
const CHANGES_BELOW: u8 = 3;

// A nonzero change of one symbol, at a place counted from the end. Zeros where a pattern has no such change.
#[derive(Clone, Copy)]
pub struct Change {
    pub place: u8,
    pub symbol: u8,
}

// Changes of 1 to 4 symbols, the highest place first, and how many they are. An array with its length beside it: there is no heap here.
#[derive(Clone, Copy)]
pub struct Pattern {
    pub count: u8,
    pub changes: [Change; 4],
}

// What a search comes to, and the steps that it used: a pattern, or that there is none, or a refusal.
#[derive(Clone, Copy)]
pub struct Outcome {
    pub found: Result<Option<Pattern>, Refusal>,
    pub steps: u64,
}

// The steps that a search has used, of those that it may. That the budget stays is said by each call that takes them: as a fact of the type it would
// have to name the budget that a search began with, which the type does not know.
#[derive(Drop)]
struct Steps {
    used: u64,
    budget: u64,
    ghost within: { used ≤ budget },
}

impl Steps {
    fn spend(&mut self) -> Result<(), Refusal>
        ensures spent { Spent self.old.used self.old.budget result self.new.used }
        ensures same_budget { self.new.budget ≡ self.old.budget }
    {
        if self.budget <= self.used {
            return Err(Refusal::BudgetSpent);
        }
        self.used += 1;
        Ok(())
    }
}

pub fn search(window: usize, scratch: &mut [u32], budget: u64) -> Outcome
    ensures { Searched window scratch.old budget result scratch.new }
{
    let mut steps = Steps { used: 0, budget };
    let found = search_counted(window, scratch, &mut steps);
    Outcome {
        found,
        steps: steps.used,
    }
}

// A pattern that passes, moved up to the highest place and scaled, still passes: so the walk starts with 1 at that place.
fn search_counted(
    window: usize,
    scratch: &mut [u32],
    steps: &mut Steps,
) -> Result<Option<Pattern>, Refusal>
    requires { steps.old.used ≡ 0 }
    ensures { Searched window scratch.old steps.old.budget (outcome result steps.new.used) scratch.new }
{
    if window == 0 || LARGEST_WINDOW < window {
        return Err(Refusal::WindowOutside);
    }
    if scratch.len() < SCRATCH_WORDS {
        return Err(Refusal::ScratchSmall);
    }
    scratch.fill(0);
    let highest = (window - 1) as u8;
    let Some(rest) = walk(CHANGES_BELOW, 1, highest, steps)? else {
        return Ok(None);
    };
    let top = Change {
        place: highest,
        symbol: 1,
    };
    Ok(Some(in_front(top, rest)))
}

// At most `changes` nonzero symbols at the places below `places` that bring a residue to zero. The last of them is read off: once a zero
// is taken in, the residue is below 32 exactly if it is itself the symbol that is wanted.
#[cycle(try_symbols_walk)]
fn walk(changes: u8, start: u32, places: u8, steps: &mut Steps) -> Result<Option<Pattern>, Refusal>
    requires { WalkAsked changes start }
    ensures walked { Walked changes start places steps.old.used steps.old.budget result steps.new.used }
    ensures same_budget { steps.new.budget ≡ steps.old.budget }
{
    let mut residue = start;
    'places: for place in (0..places).rev() {
        steps.spend()?;
        residue = step_zero(residue);
        if residue < 32 {
            return Ok(Some(single(place, residue as u8)));
        }
        // The last change was just looked for.
        if changes == 1 {
            continue 'places;
        }
        if let Some(pattern) = try_symbols(changes - 1, residue, place, steps)? {
            return Ok(Some(pattern));
        }
    }
    Ok(None)
}

// Each nonzero symbol at a place, followed by at most `changes` more below it.
#[cycle(try_symbols_walk)]
fn try_symbols(
    changes: u8,
    residue: u32,
    place: u8,
    steps: &mut Steps,
) -> Result<Option<Pattern>, Refusal>
    requires { TryAsked changes residue }
    ensures tried { Tried changes residue place steps.old.used steps.old.budget result steps.new.used }
    ensures same_budget { steps.new.budget ≡ steps.old.budget }
{
    for symbol in 1..32u8 {
        if let Some(rest) = walk(changes, residue ^ u32::from(symbol), place, steps)? {
            return Ok(Some(in_front(Change { place, symbol }, rest)));
        }
    }
    Ok(None)
}

// The checksum's step with the symbol 0.
fn step_zero(residue: u32) -> u32
    ensures { result ≡ step residue 0 }
{
    let engine = Engine { residue };
    engine.input(0).residue
}

fn single(place: u8, symbol: u8) -> Pattern
    ensures { result ≡ pattern_of (change place symbol ∷ []) }
{
    let unused = Change {
        place: 0,
        symbol: 0,
    };
    Pattern {
        count: 1,
        changes: [Change { place, symbol }, unused, unused, unused],
    }
}

fn in_front(change: Change, rest: Pattern) -> Pattern
    requires { rest.count ≤ 3 }
    ensures { result ≡ in_front change rest }
{
    let [first, second, third, _] = rest.changes;
    Pattern {
        count: rest.count + 1,
        changes: [change, first, second, third],
    }
}
