// Functions of decode, encode, hrp and iter on the cases of the file stdin, a line each: the case, then what each function gives. What must
// come is in the file stdout, which the Rust wrote (tests/oracle/PORTS.md).
#![tactic(auto)]

ghost use Rattle.std.specs.Prelude.{◌<◌, ◌≤◌, length, IfSome};

use checksum::Checksum;
use hrp::Network;
use iter::{BytesToSymbols, SymbolsToBytes};
use numbers::Refusal;
use std::cmp::Ordering;
use std::fmt::Display;
use std::io::Read;

// What lent room, 64 bytes, holds before.
const MARK: u8 = 170;

fn main(rt: HostRuntime) {
    // Fixed memory: so many bytes of the file are looked at, and nothing here stands on an allocator.
    let mut buffer = [0u8; 65536];
    let n = read_full(&rt, &mut buffer);
    replay(&rt, &buffer[..n]);
}

// Reads until the buffer is full, the input ends or a read fails; how many bytes then stand at its front.
fn read_full(rt: &impl Input, buffer: &mut [u8]) -> usize
    ensures { result ≤ length buffer.new }
{
    let mut input = rt.reader();
    let mut done = 0;
    while done < buffer.len() {
        let Ok(n) = input.read(&mut buffer[done..]) else {
            break;
        };
        if n == 0 {
            break;
        }
        done += n;
    }
    done
}

// A kind, a number, and two strings. The kind is a letter of the file stdin, taken apart in one match and nowhere else.
#[derive(Clone, Copy)]
struct Case<'a> {
    kind: u8,
    number: u8,
    a: &'a [u8],
    b: &'a [u8],
}

fn replay(rt: &impl Print, cases: &[u8]) {
    let mut rest = cases;
    while let Some((case, after)) = first_case(rest) {
        run(rt, case);
        rest = after;
    }
}

// The first case, and what stands after it: its kind, its number, the lengths of its strings in two bytes each, and the strings. None where it is
// not whole.
fn first_case(s: &[u8]) -> Option<(Case<'_>, &[u8])>
    ensures { IfSome result (λ x. length x.1.now < length s.now) }
{
    let (head, strings) = s.split_first_chunk::<6>()?;
    let [kind, number, a_low, a_high, b_low, b_high] = *head;
    let (a, strings) = strings.split_at_checked(u16::from_le_bytes([a_low, a_high]) as usize)?;
    let (b, after) = strings.split_at_checked(u16::from_le_bytes([b_low, b_high]) as usize)?;
    Some((Case { kind, number, a, b }, after))
}

fn run(rt: &impl Print, case: Case<'_>) {
    let Case { kind, number, a, b } = case;
    let _ = rt.write_all(&[kind]);
    value(rt, number);
    hex(rt, a);
    hex(rt, b);
    match kind {
        b'r' => {
            read_under(rt, Checksum::Bech32, a);
            read_under(rt, Checksum::Bech32m, a);
        }
        b'w' => write(rt, number, a, b),
        b'p' => compare(rt, a, b),
        _ => regroup(rt, a, b),
    }
    let _ = println!(rt);
}

// ---- decode

fn read_under(rt: &impl Print, checksum: Checksum, s: &[u8]) {
    hex(rt, decode::prefix_part(checksum, s));
    hex(rt, decode::data_part(checksum, s));
    let mut out = [MARK; 64];
    written(rt, decode::read_symbols(checksum, s, &mut out));
    hex(rt, &out);
}

// ---- encode

fn write(rt: &impl Print, version: u8, prefix: &[u8], bytes: &[u8]) {
    written(rt, encode::encoded_length(prefix, bytes));
    written(rt, encode::encoded_address_length(prefix, version, bytes));
    let mut out = [MARK; 64];
    written(rt, encode::write_address_v0(prefix, bytes, &mut out));
    hex(rt, &out);
    let mut next = [MARK; 64];
    written(rt, encode::write_address_v1(prefix, bytes, &mut next));
    hex(rt, &next);
}

// ---- hrp

fn compare(rt: &impl Print, a: &[u8], b: &[u8]) {
    value(rt, order_number(hrp::compare(a, b)));
    value(rt, u8::from(hrp::same(a, b)));
    value(rt, network_number(hrp::network_of(a)));
    value(rt, u8::from(hrp::is_valid_segwit(a)));
}

// Digits of the file stdout, which are no numbers of the enums' own: so no From.
fn order_number(order: Ordering) -> u8 {
    match order {
        Ordering::Less => 0,
        Ordering::Equal => 1,
        Ordering::Greater => 2,
    }
}

// The same.
fn network_number(network: Option<Network>) -> u8 {
    match network {
        Some(Network::Mainnet) => 0,
        Some(Network::Testnet) => 1,
        Some(Network::Regtest) => 2,
        None => 3,
    }
}

// ---- iter

fn regroup(rt: &impl Print, symbols: &[u8], bytes: &[u8]) {
    value(rt, numbers::number_in(iter::padding(symbols)));
    let mut out = [MARK; 64];
    written(rt, iter::symbols_to_bytes(symbols, &mut out));
    hex(rt, &out);
    walk(rt, SymbolsToBytes::new(symbols));
    walk(rt, BytesToSymbols::new(bytes));
}

fn walk<I: Iterator<Item = u8>>(rt: &impl Print, values: I)
    requires { I.can_next values }
{
    for given in values.take(256) {
        value(rt, given);
    }
}

// ---- what is printed

// The number, 0 for accepted, and the length.
fn written(rt: &impl Print, answer: Result<usize, Refusal>) {
    value(rt, numbers::number_in(answer));
    value(rt, answer.unwrap_or(0));
}

fn value(rt: &impl Print, value: impl Display + Copy) {
    let _ = print!(rt; " {value}");
}

fn hex(rt: &impl Print, bytes: &[u8]) {
    let _ = print!(rt; " ");
    for b in bytes {
        let _ = print!(rt; "{b:02x}");
    }
}
