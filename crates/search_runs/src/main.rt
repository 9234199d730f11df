// Searches, a line each: window, budget, words of scratch, whether all of them are as before and whether all are zero afterwards, as 1 or 0, and
// what was found: n for none and s for shown with the steps that it took, r with the refusal and the steps. A pattern that is shown follows, how many
// changes it has and four places with their symbols. What must come is in the file stdout.
#![tactic(auto)]

use search::Outcome;
use std::fmt;

// More than any search takes.
const AMPLE: u64 = 1000000000;

// What the scratch holds before a search.
const MARK: u32 = 7;

fn main(rt: HostRuntime) {
    let mut words = [0u32; 65536];
    run(&rt, 88, AMPLE, &mut words);
    run(&rt, 89, AMPLE, &mut words);
    run(&rt, 90, AMPLE, &mut words);
    run(&rt, 128, AMPLE, &mut words);
    run(&rt, 1, 0, &mut words);
    run(&rt, 10, 81849, &mut words);
    run(&rt, 10, 81848, &mut words);
    run(&rt, 88, 0, &mut words);
    run(&rt, 88, 101977252, &mut words);
    run(&rt, 90, 32015840, &mut words);
    run(&rt, 0, AMPLE, &mut words);
    run(&rt, 129, AMPLE, &mut words);
    // One word too few.
    let mut fewer = [0u32; 65535];
    run(&rt, 88, AMPLE, &mut fewer);
    run(&rt, 129, AMPLE, &mut fewer);
}

fn run(rt: &impl Print, window: usize, budget: u64, scratch: &mut [u32]) {
    scratch.fill(MARK);
    let outcome = search::search(window, scratch, budget);
    let words = scratch.len();
    let kept = u8::from(scratch.iter().all(|word| *word == MARK));
    let wiped = u8::from(scratch.iter().all(|word| *word == 0));
    let shown = Shown { outcome };
    let _ = println!(rt; " {window} {budget} {words} {kept} {wiped} {shown}");
}

#[derive(Clone, Copy)]
struct Shown {
    outcome: Outcome,
}

impl fmt::Display for Shown {
    fn fmt<W: fmt::Write>(&self, f: &mut fmt::Formatter<W>) -> fmt::Result {
        let steps = self.outcome.steps;
        match self.outcome.found {
            Ok(Some(pattern)) => {
                write!(f, "s {steps} {}", pattern.count)?;
                for change in &pattern.changes {
                    write!(f, " {} {}", change.place, change.symbol)?;
                }
                Ok(())
            }
            Ok(None) => write!(f, "n {steps}"),
            Err(_) => write!(f, "r {} {steps}", numbers::number_in(self.outcome.found)),
        }
    }
}
