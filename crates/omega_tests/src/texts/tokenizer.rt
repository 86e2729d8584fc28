//! Texts in the Hanoi format, byte by byte: which byte settles a token, a mark or a fault, and what the end settles.
//! Whole texts and their tokens are tried by `checks/run calls`.
ghost use Rattle.std.specs.Prelude.{◌≤◌, length};
ghost use Rattle.omega_tests.specs.Read.{HasReadTo};

use crate::rows::assert_row;
use omega_text::{ByteTokenizer, HoaKind, HoaTokenizer, PlacedToken, Settled, TextFault};

type Part = (HoaKind, usize, usize);

// Texts, and how many of their tokens are settled by each byte; 9 from the fault on.
static SETTLED: [(&str, &[usize]); 12] = [
    ("a b", &[0, 1, 1]),
    ("ab:", &[0, 0, 1]),
    ("t(0)", &[0, 2, 2, 4]),
    ("\"a\\\"\"", &[0, 0, 0, 0, 1]),
    ("--END--", &[0, 0, 0, 0, 0, 0, 1]),
    ("--EX", &[0, 0, 0, 9]),
    ("@ a", &[0, 9, 9]),
    ("x$", &[0, 9]),
    ("00 ", &[0, 0, 9]),
    ("1/**/", &[0, 1, 1, 1, 1]),
    ("1//", &[0, 1, 9]),
    ("/* ", &[0, 0, 0]),
];

// Texts, the places of the bytes of theirs by which a mark or a fault is settled,
// and the number and the place of the fault.
static STOPS: [(&str, &[usize], Option<(u32, usize)>); 10] = [
    (
        "HOA: v1 \"a\" 12 --BODY-- State: 0 {1} --END--\n",
        &[22, 43],
        None,
    ),
    ("t:9a--END--@a--ABORT--/**/--BODY--", &[33], None),
    ("9--END--9 --ABORT--", &[7, 18], None),
    ("/* --END-- */ \"--END--\\\"\" --ABORT-", &[], None),
    ("ab$", &[2], Some((1, 2))),
    ("a \"x\\\"y\" 007 ", &[12], Some((2, 9))),
    ("2147483647 2147483648 ", &[21], Some((2, 11))),
    ("[!0&1] --ENDX", &[12], Some((1, 7))),
    ("@a\t@b]--BODY--{12345678901}", &[13, 26], Some((2, 15))),
    ("123456789--ABORT--0012 ", &[17, 22], Some((2, 18))),
];

// Texts, the token that is settled by their ends, and the number and the place of the fault.
static LASTS: [(&str, Option<Part>, Option<(u32, usize)>); 15] = [
    ("", None, None),
    ("ab ", None, None),
    (" ab", Some((HoaKind::Identifier, 1, 3)), None),
    ("[t", Some((HoaKind::True, 1, 2)), None),
    ("0 12", Some((HoaKind::Int, 2, 4)), None),
    ("[@a-", Some((HoaKind::AliasName, 1, 4)), None),
    ("a:", None, None),
    ("9--END--", None, None),
    ("{\"a\"", None, None),
    ("a \"b", None, Some((1, 2))),
    ("t/*/**/", None, Some((1, 1))),
    ("9 --EN", None, Some((1, 2))),
    ("x 2147483648", None, Some((2, 2))),
    ("x 007", None, Some((2, 2))),
    ("a$b", None, Some((1, 1))),
];

// The number of tokens that are settled by a byte and before; a fault counts as 9.
fn count_after(count: usize, settled: &Settled) -> usize {
    if settled.fault.is_some() {
        return 9;
    }
    count
        .wrapping_add(usize::from(settled.first.is_some()))
        .wrapping_add(usize::from(settled.second.is_some()))
}

// What the end of a text settles; none if a byte does not settle as many tokens as its count says, where it has one.
fn last_settled<T: ByteTokenizer + Drop>(text: &[u8], counts: &[usize]) -> Option<Settled> {
    let mut tokenizer = T::new();
    let mut count = 0usize;
    for (place, byte) in text.iter().enumerate() {
        let settled = tokenizer.step(*byte);
        count = count_after(count, &settled);
        if counts.get(place).copied().unwrap_or(count) != count {
            return None;
        }
    }
    Some(tokenizer.finish())
}

#[test]
fn each_token_is_settled_at_its_byte(rt: HostRuntime) {
    for (row, (text, counts)) in SETTLED.iter().enumerate() {
        let is_read = last_settled::<HoaTokenizer>(text.as_bytes(), counts).is_some();
        assert_row(&rt, row, is_read && text.len() == counts.len());
    }
}

// Passes a text from a place on, up to a mark or a fault.
#[tactic(auto, using(crate::proofs::Passing::passed_to))]
fn pass<T: ByteTokenizer>(tokenizer: &mut T, text: &[u8], from: usize) -> usize
    requires read { HasReadTo (T.read tokenizer.old) from }
    requires within { from ≤ length text.now }
    ensures read { HasReadTo (T.read tokenizer.new) result }
    ensures end { result ≤ length text.now }
{
    tokenizer.pass(text, from)
}

// Whether a text is passed up to these bytes, which settle a mark or a fault, and the last of them this fault.
fn are_stops<T: ByteTokenizer + Drop>(
    text: &[u8],
    stops: &[usize],
    fault: Option<(u32, usize)>,
) -> bool {
    let mut tokenizer = T::new();
    let mut next = 0usize;
    let mut last = None;
    for stop in stops {
        next = pass(&mut tokenizer, text, next);
        if next != *stop || next == text.len() {
            return false;
        }
        last = tokenizer.step(text[next]).fault;
        next += 1;
    }
    pass(&mut tokenizer, text, next) == text.len() && last.map(number_and_place) == fault
}

#[test]
fn bytes_are_passed_up_to_marks_and_faults(rt: HostRuntime) {
    for (row, (text, stops, fault)) in STOPS.iter().enumerate() {
        let passed = are_stops::<HoaTokenizer>(text.as_bytes(), stops, *fault);
        assert_row(&rt, row, passed);
    }
}

fn part_of(token: PlacedToken) -> Part {
    (token.kind, token.span.start, token.span.end)
}

fn number_and_place(fault: TextFault) -> (u32, usize) {
    match fault {
        TextFault::Lex { at } => (1, at),
        TextFault::Number { at } => (2, at),
        TextFault::Syntax { at } => (3, at),
        TextFault::TooLong => (4, 0),
    }
}

// Whether the end of a text settles this token and this fault, and no other token.
fn is_last(text: &[u8], part: Option<Part>, fault: Option<(u32, usize)>) -> bool {
    match last_settled::<HoaTokenizer>(text, &[]) {
        Some(settled) => {
            settled.first.map(part_of) == part
                && settled.second.is_none()
                && settled.fault.map(number_and_place) == fault
        }
        None => false,
    }
}

#[test]
fn the_end_settles_what_is_left(rt: HostRuntime) {
    for (row, (text, part, fault)) in LASTS.iter().enumerate() {
        assert_row(&rt, row, is_last(text.as_bytes(), *part, *fault));
    }
}
