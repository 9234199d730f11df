// Characters as symbols, into a lent buffer.
ghost use Rattle.std.specs.Prelude.{◌≡◌, map};
ghost use Rattle.paper.specs.Charset.{symbol};
ghost use Rattle.iter.specs.Writing.{Wrote};

use numbers::Refusal;

// The characters are laid into the front of the buffer and turned into symbols there.
pub(crate) fn put_symbols(characters: &[u8], out: &mut [u8]) -> Result<usize, Refusal>
    ensures { Wrote (map symbol characters.now) out.old result out.new }
{
    if out.len() < characters.len() {
        return Err(Refusal::RoomSmall);
    }
    let front = &mut out[..characters.len()];
    front.copy_from_slice(characters);
    to_symbols(front);
    Ok(characters.len())
}

#[tactic(auto, using(laws::proofs::Front::in_place))]
fn to_symbols(characters: &mut [u8])
    ensures { characters.new ≡ map symbol characters.old }
{
    let classes = gf32::classes();
    for character in characters.iter_mut() {
        *character = classes.symbol(*character);
    }
}
