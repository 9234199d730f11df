// Many addresses in one buffer, each judged for itself: document 01's module 11, the batch.
#![tactic(auto)]

ghost use Rattle.std.specs.Prelude.{◌≡◌};
ghost use Rattle.batch.specs.Batch.{entry_verdict, judged_as};
ghost use Rattle.batch.specs.Promises.{EntryJudged, BatchJudged};

use answers::Address;
use numbers::{ACCEPTED, Refusal};

pub const MAX_ENTRIES: usize = 32;

// One address of a batch: where it stands in the buffer; its verdict, 0 or a number of `numbers`, and with 0 its version and its program's length. C has it
// with the same layout, so the verdict is a number and no Result.
#[repr(C)]
#[derive(Clone, Copy)]
pub struct Entry {
    pub start: usize,
    pub len: usize,
    pub verdict: u8,
    pub version: u8,
    pub program: usize,
}

// One entry with its verdict, version and program length; where it stands is kept.
#[tactic(auto, unfolding(crate::specs::Batch::judged))]
pub fn judge(buffer: &[u8], entry: Entry) -> Entry
    ensures { EntryJudged buffer.now entry result }
{
    judged_as(entry, entry_verdict(buffer, entry))
}

// Start and length are compared without their sum, which may be no usize.
#[tactic(auto, unfolding(crate::specs::Batch::entry_verdict))]
fn entry_verdict(buffer: &[u8], entry: Entry) -> Result<Address, Refusal>
    ensures { result ≡ entry_verdict buffer.now entry }
{
    let Entry { start, len, .. } = entry;
    if buffer.len() < start || buffer.len() - start < len {
        return Err(Refusal::EntryOutside);
    }
    decode::check_address(&buffer[start..start + len])
}

fn judged_as(entry: Entry, answer: Result<Address, Refusal>) -> Entry
    ensures { result ≡ judged_as entry answer }
{
    match answer {
        Ok(address) => Entry {
            verdict: ACCEPTED,
            version: address.version,
            program: address.length,
            ..entry
        },
        Err(refusal) => Entry {
            verdict: refusal.into(),
            version: 0,
            program: 0,
            ..entry
        },
    }
}

// Each entry of the lent list judged in its place. The answer is a number, 0 or 19, as callers that know C have no enums. They call it through the
// static library batch_c.
#[tactic(auto, using(laws::proofs::Front::in_place, crate::proofs::Entries::many_refused, crate::proofs::Entries::few_accepted))]
pub fn pennywax_apart_judge_batch(buffer: &[u8], entries: &mut [Entry]) -> u8
    ensures { BatchJudged buffer.now entries.old result entries.new }
{
    if MAX_ENTRIES < entries.len() {
        return Refusal::BatchLong.into();
    }
    for entry in entries.iter_mut() {
        *entry = judge(buffer, *entry);
    }
    ACCEPTED
}
