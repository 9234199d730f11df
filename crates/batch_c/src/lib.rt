// What C calls of the crate batch, under the name that c/pennywax.c knows: it hands over to batch's function of that name, and promises what that
// promises.
#![tactic(auto)]

ghost use Rattle.batch.specs.Promises.{BatchJudged};

use batch::Entry;

#[unsafe(no_mangle)]
pub extern "C" fn pennywax_apart_judge_batch(buffer: &[u8], entries: &mut [Entry]) -> u8
    ensures { BatchJudged buffer.now entries.old result entries.new }
{
    batch::pennywax_apart_judge_batch(buffer, entries)
}
