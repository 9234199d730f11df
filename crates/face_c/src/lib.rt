// What C calls of the crate face, under the names that c/pennywax.c knows: each function hands over to face's function of its name, and promises what
// that promises.
#![tactic(auto)]

ghost use Rattle.face.specs.Promises.{AddressChecked, AddressRead, StringRead, PlaceLocated};
ghost use Rattle.face.specs.Promises.{BytesRead, SymbolsWritten, BytesWritten, AddressWritten, OverlapTold};

#[unsafe(no_mangle)]
pub extern "C" fn pennywax_apart_check_address(s: &[u8], version: &mut u8, length: &mut usize) -> u8
    ensures { AddressChecked s.now result version.new length.new }
{
    face::pennywax_apart_check_address(s, version, length)
}

#[unsafe(no_mangle)]
pub extern "C" fn pennywax_apart_read_address(
    s: &[u8],
    out: &mut [u8],
    version: &mut u8,
    length: &mut usize,
) -> u8
    ensures { AddressRead s.now out.old result out.new version.new length.new }
{
    face::pennywax_apart_read_address(s, out, version, length)
}

#[unsafe(no_mangle)]
pub extern "C" fn pennywax_apart_read(
    code: u8,
    s: &[u8],
    prefix: &mut usize,
    symbols: &mut usize,
) -> u8
    ensures { StringRead code s.now result prefix.new symbols.new }
{
    face::pennywax_apart_read(code, s, prefix, symbols)
}

#[unsafe(no_mangle)]
pub extern "C" fn pennywax_apart_locate(code: u8, s: &[u8], place: &mut usize) -> u8
    ensures { PlaceLocated code s.now result place.new }
{
    face::pennywax_apart_locate(code, s, place)
}

#[unsafe(no_mangle)]
pub extern "C" fn pennywax_apart_read_bytes(
    code: u8,
    s: &[u8],
    out: &mut [u8],
    written: &mut usize,
) -> u8
    ensures { BytesRead code s.now out.old result out.new written.new }
{
    face::pennywax_apart_read_bytes(code, s, out, written)
}

#[unsafe(no_mangle)]
pub extern "C" fn pennywax_apart_write_symbols(
    code: u8,
    prefix: &[u8],
    symbols: &[u8],
    out: &mut [u8],
    written: &mut usize,
) -> u8
    ensures { SymbolsWritten code prefix.now symbols.now out.old result out.new written.new }
{
    face::pennywax_apart_write_symbols(code, prefix, symbols, out, written)
}

#[unsafe(no_mangle)]
pub extern "C" fn pennywax_apart_write_bytes(
    code: u8,
    prefix: &[u8],
    bytes: &[u8],
    out: &mut [u8],
    written: &mut usize,
) -> u8
    ensures { BytesWritten code prefix.now bytes.now out.old result out.new written.new }
{
    face::pennywax_apart_write_bytes(code, prefix, bytes, out, written)
}

#[unsafe(no_mangle)]
pub extern "C" fn pennywax_apart_write_address(
    prefix: &[u8],
    version: u8,
    program: &[u8],
    out: &mut [u8],
    written: &mut usize,
) -> u8
    ensures { AddressWritten prefix.now version program.now out.old result out.new written.new }
{
    face::pennywax_apart_write_address(prefix, version, program, out, written)
}

#[unsafe(no_mangle)]
pub extern "C" fn pennywax_ranges_overlap(a: usize, m: usize, b: usize, n: usize) -> u8
    ensures { OverlapTold a m b n result }
{
    face::pennywax_ranges_overlap(a, m, b, n)
}
