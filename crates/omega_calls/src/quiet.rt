//! Calls that ask for no memory, after those that make what they are made on.
ghost use Rattle.std.specs.Prelude.{◌<◌, length};

use crate::expressions::label_in;
use crate::kinds::put_hoa;
use crate::lists::{put, put_all, put_answer, put_each};
use omega_game::{Game, Player, Refusal, Seq, Strategy};
use omega_hoa::{Stream, read_one};
use omega_hoa_acceptance::{
    AccKind, Order, Parity, ParityKind, acceptance_kind, parity_of, priority,
};
use omega_hoa_automaton::{Automaton, EdgeRef, State};
use omega_hoa_label::{Label, RawLabel};
use omega_hoa_label_text::{Aliases, expand};
use omega_hoa_satisfiable::satisfiable;
use omega_hoa_syntax::HeaderValue;
use omega_io::{Exit, exit_code};
use omega_lift_bound::bound;
use omega_measure::fits;
use omega_text::{
    ByteString, Cursor, HoaKind, PgKind, TextCursor, TextFault, Token, TokenKind, TokenSource,
    check_tokens, hoa_tokens, next_hoa_token, next_pg_number, next_pg_token,
};
use std::alloc::Global;

/// Returns what the calls of this name give of `text`, if `other` says that they are made.
pub(crate) fn answer_call(
    alloc: Global,
    call: &str,
    text: &[u8],
    other: &[u8],
) -> Result<Vec<u8>, Refusal> {
    match call {
        "texts" => texts(alloc, text, runs(other)),
        "automaton" => automaton(alloc, read_one(alloc, text), runs(other)),
        _ => label(alloc, label_in(alloc, text), runs(other)),
    }
}

/// Whether the second text says that the calls are made.
pub(crate) fn runs(other: &[u8]) -> bool {
    other == b"run".as_slice()
}

fn texts(alloc: Global, text: &[u8], runs: bool) -> Result<Vec<u8>, Refusal> {
    let tokens = hoa_tokens(alloc, text)?;
    let mut out = Vec::with_capacity(alloc, 4096)?;
    if runs {
        put_tokens(alloc, text, &mut out)?;
        put_places(&mut Cursor::new(tokens.as_slice(), text.len()), &mut out)?;
    }
    Ok(out)
}

/// Puts the first token of a text of the Hanoi format, all of them by a cursor over its bytes, and its first one as a
/// game text.
fn put_tokens(alloc: Global, text: &[u8], out: &mut Vec<u8>) -> Result<(), Refusal> {
    if let Ok(Some(token)) = next_hoa_token(text, 0) {
        put(out, token.span.end as u128)?;
    }
    put_pg_fault(text, out)?;
    put_answer(out, next_pg_number(text, 0).is_some())?;
    put_checked(text, out)?;
    put_new(alloc, out)
}

fn put_checked(text: &[u8], out: &mut Vec<u8>) -> Result<(), Refusal> {
    if check_tokens::<HoaKind>(text).is_ok() {
        put_places(&mut TextCursor::<HoaKind>::new(text), out)?;
    }
    match check_tokens::<PgKind>(text) {
        Ok(()) => Ok(()),
        Err(fault) => put(out, Refusal::Text(fault).at().unwrap_or(0) as u128),
    }
}

/// Puts the end of a stream without a text, and a status, and makes a list of no aliases.
fn put_new(alloc: Global, out: &mut Vec<u8>) -> Result<(), Refusal> {
    let _none = Aliases::new(alloc);
    put_answer(out, Stream::new(alloc).finish().is_ok())?;
    put(out, u128::from(exit_code(&Ok(Exit::No))))
}

/// Puts what is at fault with the first token of a text as a game text.
fn put_pg_fault(text: &[u8], out: &mut Vec<u8>) -> Result<(), Refusal> {
    if let Err(fault) = next_pg_token(text, 0) {
        put(out, u128::from(Refusal::Text(fault).number()))?;
        out.extend_from_slice(Refusal::Text(fault).name().as_bytes())?;
    }
    Ok(())
}

fn put_places<'a, S: TokenSource<'a, HoaKind>>(
    source: &mut S,
    out: &mut Vec<u8>,
) -> Result<(), Refusal> {
    for _ in 0..100 {
        if !put_place(source, out)? {
            break;
        }
    }
    Ok(())
}

/// Puts the place of a source, and takes the token there and puts it, and whether it was shown before. Whether there
/// was one.
fn put_place<'a, S: TokenSource<'a, HoaKind>>(
    source: &mut S,
    out: &mut Vec<u8>,
) -> Result<bool, Refusal> {
    put(out, source.place() as u128)?;
    put_taken(source.look(), source.take(), out)
}

fn put_taken(
    shown: Option<Token<'_, HoaKind>>,
    taken: Option<Token<'_, HoaKind>>,
    out: &mut Vec<u8>,
) -> Result<bool, Refusal> {
    put_answer(out, shown == taken)?;
    match taken {
        Some(token) => {
            put_hoa(out, &token)?;
            Ok(true)
        }
        None => Ok(false),
    }
}

/// Calls on a game.
pub(crate) fn of_game(alloc: Global, game: &Game, runs: bool) -> Result<Vec<u8>, Refusal> {
    let choice = Seq::from_vec(vec![in alloc; Some(0); game.len()]?);
    let mut out = Vec::with_capacity(alloc, 4096)?;
    if runs {
        put_game(game, &Strategy { choice }, &mut out)?;
    }
    Ok(out)
}

fn put_game(game: &Game, strategy: &Strategy, out: &mut Vec<u8>) -> Result<(), Refusal> {
    for place in 0..game.len() as u32 {
        put_node(game, place, out)?;
    }
    put(out, game.edges() as u128)?;
    for class in game.priority_counts() {
        put_all(out, &[class.priority, class.nodes])?;
    }
    for id in 0..11 {
        put_answer(out, game.place_of(id).is_some())?;
    }
    put_answer(out, strategy.fits(game.forward_game(), Player::Zero))?;
    put_answer(out, fits(game.forward_game(), Player::Zero))?;
    let zero = bound(game.forward_game(), Player::Zero).unwrap_or(0);
    put_each(
        out,
        &[zero, bound(game.forward_game(), Player::One).unwrap_or(0)],
    )
}

fn put_node(game: &Game, place: u32, out: &mut Vec<u8>) -> Result<(), Refusal>
    requires { place < length game.now }
{
    let (id, priority) = (game.id(place), game.priority(place));
    put_each(out, &[u128::from(id), u128::from(priority)])?;
    put_player(game.owner(place), priority, out)?;
    put_name(game.name(place), out)?;
    put_answer(out, game.place_of(id) == Some(place))?;
    put_all(out, game.successors(place))?;
    put_all(out, game.predecessors(place))
}

/// Puts whether a node has a name, and the name.
fn put_name(name: Option<&[u8]>, out: &mut Vec<u8>) -> Result<(), Refusal> {
    put_answer(out, name.is_some())?;
    match name {
        Some(bytes) => Ok(out.extend_from_slice(bytes)?),
        None => Ok(()),
    }
}

/// Puts a player, and whether a priority that occurs for ever is lost by the opponent.
fn put_player(player: Player, priority: u32, out: &mut Vec<u8>) -> Result<(), Refusal> {
    put(out, u128::from(player.number()))?;
    put_answer(out, player.opponent().loses(priority))?;
    put_answer(out, Player::of_number(player.number()).is_some())
}

fn label(alloc: Global, raw: Result<RawLabel, Refusal>, runs: bool) -> Result<Vec<u8>, Refusal> {
    match raw {
        Ok(raw) => of_expanded(alloc, expand(alloc, &raw, &Aliases::new(alloc)), runs),
        Err(refusal) => Err(refusal),
    }
}

fn of_expanded(
    alloc: Global,
    label: Result<Label, Refusal>,
    runs: bool,
) -> Result<Vec<u8>, Refusal> {
    match label {
        Ok(label) => of_label(alloc, &label, runs),
        Err(refusal) => Err(refusal),
    }
}

fn of_label(alloc: Global, label: &Label, runs: bool) -> Result<Vec<u8>, Refusal> {
    let mut out = Vec::with_capacity(alloc, 4096)?;
    if runs {
        put_answer(&mut out, satisfiable(label)?)?;
    }
    Ok(out)
}

fn automaton(
    alloc: Global,
    read: Result<Automaton, Refusal>,
    runs: bool,
) -> Result<Vec<u8>, Refusal> {
    match read {
        Ok(automaton) => of_automaton(alloc, &automaton, runs),
        Err(refusal) => Err(refusal),
    }
}

fn of_automaton(alloc: Global, automaton: &Automaton, runs: bool) -> Result<Vec<u8>, Refusal> {
    let mut out = Vec::with_capacity(alloc, 4096)?;
    if runs {
        put_automaton(automaton, &mut out)?;
    }
    Ok(out)
}

/// Puts what is read of an automaton.
pub(crate) fn put_automaton(automaton: &Automaton, out: &mut Vec<u8>) -> Result<(), Refusal> {
    let counts = [
        u128::from(automaton.state_count()),
        automaton.propositions().len() as u128,
        u128::from(automaton.set_count()),
        automaton.defined().len() as u128,
        u128::from(automaton.edge_count()),
    ];
    put_each(out, counts.as_slice())?;
    put_headers(automaton, out)?;
    for state in automaton.defined() {
        put_edges(state, out)?;
    }
    let kind = ParityKind {
        order: Order::Max,
        parity: Parity::Even,
        count: 2,
    };
    put(out, u128::from(priority(kind, &[0, 1])))?;
    put_kind(automaton, out)
}

/// Puts the starts, names and words of an automaton.
fn put_headers(automaton: &Automaton, out: &mut Vec<u8>) -> Result<(), Refusal> {
    for start in automaton.starts() {
        put_all(out, start.as_slice())?;
    }
    put_words(automaton.propositions(), out)?;
    put_words(automaton.properties(), out)?;
    for header in automaton.unknown() {
        out.extend_from_slice(header.name.as_slice())?;
        put_values(header.values.as_slice(), out)?;
    }
    put_name(automaton.name(), out)?;
    match automaton.tool() {
        Some(tool) => {
            put_name(Some(tool.name.as_slice()), out)?;
            match &tool.version {
                Some(version) => put_name(Some(version.as_slice()), out),
                None => put_answer(out, false),
            }
        }
        None => put_answer(out, false),
    }
}

/// Puts words, with a space after each, and `;`.
fn put_words(words: &[ByteString], out: &mut Vec<u8>) -> Result<(), Refusal> {
    for word in words {
        out.extend_from_slice(word.as_slice())?;
        out.push(b' ')?;
    }
    Ok(out.push(b';')?)
}

/// Puts the values of a header item, with a space before each, and `;`.
fn put_values(values: &[HeaderValue], out: &mut Vec<u8>) -> Result<(), Refusal> {
    for value in values {
        out.push(b' ')?;
        match value {
            HeaderValue::Boolean(truth) => put_answer(out, *truth)?,
            HeaderValue::Number(number) => put(out, u128::from(*number))?,
            HeaderValue::Text(text) => put_name(Some(text.as_slice()), out)?,
            HeaderValue::Word(word) => out.extend_from_slice(word.as_slice())?,
        }
    }
    Ok(out.push(b';')?)
}

/// Puts the number, the name and the marks of a state, and its edges.
fn put_edges(state: &State, out: &mut Vec<u8>) -> Result<(), Refusal> {
    put(out, u128::from(state.number))?;
    put_name(state.name.as_slice(), out)?;
    put_all(out, state.marks.as_slice())?;
    put_answer(out, state.label.is_some())?;
    for at in 0..state.edges.len() {
        put_edge(&state.edges.edge(at), out)?;
    }
    Ok(())
}

/// Puts whether an edge has a label, its targets, and its marks.
fn put_edge(edge: &EdgeRef<'_>, out: &mut Vec<u8>) -> Result<(), Refusal> {
    put_answer(out, edge.label().is_some())?;
    put_all(out, edge.targets())?;
    put_all(out, edge.marks())
}

/// Puts the kind of the acceptance of an automaton.
fn put_kind(automaton: &Automaton, out: &mut Vec<u8>) -> Result<(), Refusal> {
    let Some(name) = automaton.acc_name() else {
        return Ok(());
    };
    let (count, formula) = (automaton.set_count(), automaton.acceptance());
    match acceptance_kind(name, count, formula) {
        Ok(AccKind::Parity(kind)) => put_parity(kind, out)?,
        Ok(AccKind::GenBuchi(sets)) => put(out, u128::from(sets))?,
        Err(refusal) => put(out, u128::from(refusal.number()))?,
    }
    match parity_of(name, count, formula) {
        Ok(kind) => put_parity(kind, out),
        Err(refusal) => put(out, u128::from(refusal.number())),
    }
}

/// Puts a parity, as `max even 2`, with `;` after it.
fn put_parity(kind: ParityKind, out: &mut Vec<u8>) -> Result<(), Refusal> {
    out.extend_from_slice(if kind.order == Order::Max {
        b"max ".as_slice()
    } else {
        b"min ".as_slice()
    })?;
    out.extend_from_slice(if kind.parity == Parity::Even {
        b"even ".as_slice()
    } else {
        b"odd ".as_slice()
    })?;
    put(out, u128::from(kind.count))?;
    Ok(out.push(b';')?)
}
