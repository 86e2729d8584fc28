//! Streams of automata, whole and in pieces.
use crate::lists::put;
use crate::quiet::put_automaton;
use omega_hoa::{Item, Stream, read_stream};
use omega_text::Refusal;
use std::alloc::Global;

/// Returns what the call on streams of this name gives of `text`.
pub(crate) fn answer_call(alloc: Global, call: &str, text: &[u8]) -> Result<Vec<u8>, Refusal> {
    match call {
        "read_stream" => items_of_whole(alloc, text),
        "pieces" => stream_answers(alloc, text),
        _ => in_pieces(alloc, text),
    }
}

fn items_of_whole(alloc: Global, text: &[u8]) -> Result<Vec<u8>, Refusal> {
    let items = read_stream(alloc, text)?;
    texts_of_items(alloc, items.as_slice())
}

fn in_pieces(alloc: Global, text: &[u8]) -> Result<Vec<u8>, Refusal> {
    let mut items = Vec::new(alloc);
    feed_pieces(Stream::new(alloc), text, &mut items)?;
    texts_of_items(alloc, items.as_slice())
}

/// Feeds a stream with pieces of up to 40 bytes.
fn feed_pieces(mut stream: Stream, text: &[u8], items: &mut Vec<Item>) -> Result<(), Refusal> {
    for piece in text.chunks(40) {
        feed_again(&mut stream, piece, items)?;
    }
    stream.finish()
}

/// Feeds a piece. A refused request leaves stream and items as they were, so that the piece may be fed once more.
fn feed_again(stream: &mut Stream, piece: &[u8], items: &mut Vec<Item>) -> Result<(), Refusal> {
    let count = items.len();
    match stream.feed(piece, items) {
        Err(Refusal::Memory) if items.len() != count => Err(Refusal::Io),
        Err(Refusal::Memory) => stream.feed(piece, items),
        given => given,
    }
}

fn texts_of_items(alloc: Global, items: &[Item]) -> Result<Vec<u8>, Refusal> {
    let mut out = Vec::new(alloc);
    for item in items {
        put_item(item, &mut out)?;
    }
    Ok(out)
}

/// Puts a word for the kind of an item, and what is read of an automaton.
fn put_item(item: &Item, out: &mut Vec<u8>) -> Result<(), Refusal> {
    match item {
        Item::Automaton(automaton) => {
            out.extend_from_slice(b"automaton ")?;
            put_automaton(automaton, out)?;
        }
        Item::Aborted => out.extend_from_slice(b"aborted")?,
    }
    Ok(out.push(b'\n')?)
}

/// Returns what a stream answers to each of the pieces of a text, between which stands `~`, and to its end, and the
/// items.
fn stream_answers(alloc: Global, text: &[u8]) -> Result<Vec<u8>, Refusal> {
    let Ok(text) = std::str::from_utf8(text) else {
        return Err(Refusal::Io);
    };
    let mut items = Vec::new(alloc);
    let mut out = Vec::new(alloc);
    put_answers(Stream::new(alloc), text, &mut items, &mut out)?;
    out.extend_from_slice(texts_of_items(alloc, items.as_slice())?.as_slice())?;
    Ok(out)
}

fn put_answers(
    mut stream: Stream,
    text: &str,
    items: &mut Vec<Item>,
    out: &mut Vec<u8>,
) -> Result<(), Refusal> {
    for piece in text.split('~') {
        put_reported(out, stream.feed(piece.as_bytes(), items))?;
    }
    put_reported(out, stream.finish())
}

/// Puts the number of a refusal, or 0, its place, if it has one, and `;`.
fn put_reported(out: &mut Vec<u8>, answer: Result<(), Refusal>) -> Result<(), Refusal> {
    match answer {
        Ok(()) => put(out, 0)?,
        Err(refusal) => {
            put(out, u128::from(refusal.number()))?;
            if let Some(at) = refusal.at() {
                put(out, at as u128)?;
            }
        }
    }
    Ok(out.push(b';')?)
}
