//! What one line of a replay text says at its place.
ghost use Rattle.std.specs.Prelude.{◌≡◌, ◌<◌, ◌≤◌, IfOk, IfSome, codes};
ghost use Rattle.ell_ops.specs.Meaning.{greatest_key, most_workers};
ghost use Rattle.ell_text.specs.replays.Pieces.{IsCut, piece_list};
ghost use Rattle.ell_text.specs.replays.ReplayLine.{SaidFits, act_of, act_on, begin_event, card_event, card_in, count_in, count_of, entry_of, entry_or_event, event_of, pieces, plain_event, replay_key_in, replay_line_at, said_at, worker_in};

use crate::line::OpKind;
use crate::lines::{cut_at_space, is_skipped};
use crate::number::{NumberFault, read_key, read_number};
use ell_core::{Act, Event};
use ell_ops::WORKERS_MAX;
use ell_word::CARDS_MAX;

/// Why a line of a replay text says nothing at its place. The first in this list that holds counts.
#[derive(Clone, Copy)]
pub(crate) enum ReplayLineFault {
    /// The line has none of the forms that may stand there.
    BadLine,
    /// A number is misspelled, or a number that is not a key is out of its range.
    BadNumber,
    /// The key is above `KEY_MAX`.
    KeyTooLarge,
}

/// A place in a replay text, by the lines that may stand there.
#[derive(Clone, Copy)]
pub(crate) enum Place {
    /// The line of the number of workers.
    Workers,
    /// The line of the number of cards.
    Cards,
    /// Own lines, and the first event.
    Owns,
    /// Events alone.
    Events,
}

/// What a line of a replay text says.
#[derive(Clone, Copy)]
pub(crate) enum Said {
    /// The number of workers.
    Workers(u32),
    /// The number of cards.
    Cards(u64),
    /// A worker, and a key of its own.
    Own(u32, u64),
    /// An event.
    Event(Event),
}

// The pieces of a line.
#[derive(Clone, Copy)]
enum Pieces<'a> {
    Two(&'a [u8], &'a [u8]),
    Three(&'a [u8], &'a [u8], &'a [u8]),
    Four(&'a [u8], &'a [u8], &'a [u8], &'a [u8]),
    // One piece, or more than four: no form has this many.
    Other,
}

/// Reads what a line says at a place, or returns `None` if the line is skipped.
pub(crate) fn read_replay_line(place: Place, line: &[u8]) -> Result<Option<Said>, ReplayLineFault>
    ensures value { result ≡ replay_line_at place line.now }
    ensures within { IfOk result (λ found. IfSome found SaidFits) }
{
    if is_skipped(line) {
        return Ok(None);
    }
    Ok(Some(read_said(place, cut(line))?))
}

// The pieces of a line, cut at each space.
fn cut(line: &[u8]) -> Pieces<'_>
    ensures { IsCut result (pieces line.now) }
{
    let Some((first, rest)) = cut_at_space(line) else {
        return Pieces::Other;
    };
    let Some((second, rest)) = cut_at_space(rest) else {
        return Pieces::Two(first, rest);
    };
    let Some((third, rest)) = cut_at_space(rest) else {
        return Pieces::Three(first, second, rest);
    };
    match cut_at_space(rest) {
        None => Pieces::Four(first, second, third, rest),
        Some(_) => Pieces::Other,
    }
}

fn read_said(place: Place, pieces: Pieces<'_>) -> Result<Said, ReplayLineFault>
    ensures value { result ≡ said_at place (piece_list pieces.entry) }
    ensures within { IfOk result SaidFits }
{
    match place {
        Place::Workers => {
            let count = read_count_line(b"workers", u64::from(WORKERS_MAX), pieces)?;
            Ok(Said::Workers(count as u32))
        }
        Place::Cards => Ok(Said::Cards(read_count_line(b"cards", CARDS_MAX, pieces)?)),
        Place::Owns => read_entry_or_event(pieces),
        Place::Events => Ok(Said::Event(read_event(pieces)?)),
    }
}

// The number of `workers N` or `cards N`.
fn read_count_line(name: &[u8], max: u64, pieces: Pieces<'_>) -> Result<u64, ReplayLineFault>
    ensures value { result ≡ count_of name.now max (piece_list pieces.entry) }
    ensures some { IfOk result (λ count. 1 ≤ count) }
    ensures within { IfOk result (λ count. count ≤ max) }
{
    match pieces {
        Pieces::Two(word, number) if word == name => read_count(number, max),
        _ => Err(ReplayLineFault::BadLine),
    }
}

fn read_entry_or_event(pieces: Pieces<'_>) -> Result<Said, ReplayLineFault>
    ensures value { result ≡ entry_or_event (piece_list pieces.entry) }
    ensures within { IfOk result SaidFits }
{
    match pieces {
        Pieces::Three(b"own", worker, key) => read_entry(worker, key),
        _ => Ok(Said::Event(read_event(pieces)?)),
    }
}

// `own W K`.
fn read_entry(worker: &[u8], key: &[u8]) -> Result<Said, ReplayLineFault>
    ensures value { result ≡ entry_of worker.now key.now }
    ensures within { IfOk result SaidFits }
{
    let worker = read_worker(worker)?;
    Ok(Said::Own(worker, read_replay_key(key)?))
}

fn read_event(pieces: Pieces<'_>) -> Result<Event, ReplayLineFault>
    ensures value { result ≡ event_of (piece_list pieces.entry) }
    ensures within { IfOk result (λ event. event.worker < most_workers) }
{
    match pieces {
        Pieces::Two(worker, word) => read_plain_event(worker, word),
        Pieces::Three(worker, word, card) => read_card_event(worker, word, card),
        Pieces::Four(worker, b"begin", name, key) => read_begin(worker, name, key),
        _ => Err(ReplayLineFault::BadLine),
    }
}

// `W act`.
fn read_plain_event(worker: &[u8], word: &[u8]) -> Result<Event, ReplayLineFault>
    ensures value { result ≡ plain_event worker.now word.now }
    ensures within { IfOk result (λ event. event.worker < most_workers) }
{
    let Some(act) = plain_act(word) else {
        return Err(ReplayLineFault::BadLine);
    };
    let worker = read_worker(worker)?;
    Ok(Event { worker, act })
}

// `W act C`.
fn read_card_event(worker: &[u8], word: &[u8], card: &[u8]) -> Result<Event, ReplayLineFault>
    ensures value { result ≡ card_event worker.now word.now card.now }
    ensures within { IfOk result (λ event. event.worker < most_workers) }
{
    let act = act_on(word, read_card(card))?;
    let worker = read_worker(worker)?;
    Ok(Event { worker, act })
}

// `W begin operation K`: an insert has the value 0.
fn read_begin(worker: &[u8], name: &[u8], key: &[u8]) -> Result<Event, ReplayLineFault>
    ensures value { result ≡ begin_event worker.now (codes "begin") name.now key.now }
    ensures within { IfOk result (λ event. event.worker < most_workers) }
{
    let Some(kind) = OpKind::named(name) else {
        return Err(ReplayLineFault::BadLine);
    };
    let worker = read_worker(worker)?;
    let key = read_replay_key(key)?;
    Ok(Event {
        worker,
        act: Act::Begin(kind.on(key, 0)),
    })
}

// The act that a word says alone.
fn plain_act(word: &[u8]) -> Option<Act>
    ensures { result ≡ act_of word.now }
{
    match word {
        b"upd" => Some(Act::Upd),
        b"down" => Some(Act::Down),
        b"claim" => Some(Act::Claim),
        b"iflag" => Some(Act::IFlag),
        b"dflag" => Some(Act::DFlag),
        b"again" => Some(Act::Again),
        b"leave" => Some(Act::Leave),
        b"answer" => Some(Act::Answer),
        _ => None,
    }
}

// The act that a word names on a card. A word that names none is the fault even if the card is misspelled.
fn act_on(word: &[u8], card: Result<u64, ReplayLineFault>) -> Result<Act, ReplayLineFault>
    ensures { result ≡ act_on word.now card }
{
    match word {
        b"ichild" => card.map(Act::IChild),
        b"iunflag" => card.map(Act::IUnflag),
        b"mark" => card.map(Act::Mark),
        b"dchild" => card.map(Act::DChild),
        b"dunflag" => card.map(Act::DUnflag),
        b"backtrack" => card.map(Act::Backtrack),
        _ => Err(ReplayLineFault::BadLine),
    }
}

// A worker's number.
fn read_worker(bytes: &[u8]) -> Result<u32, ReplayLineFault>
    ensures value { result ≡ worker_in bytes.now }
    ensures within { IfOk result (λ worker. worker < most_workers) }
{
    match read_number(bytes, u64::from(WORKERS_MAX) - 1) {
        Ok(worker) => Ok(worker as u32),
        Err(_) => Err(ReplayLineFault::BadNumber),
    }
}

// A card's number.
fn read_card(bytes: &[u8]) -> Result<u64, ReplayLineFault>
    ensures { result ≡ card_in bytes.now }
{
    read_number(bytes, CARDS_MAX).map_err(|_| ReplayLineFault::BadNumber)
}

// A number from 1 on.
fn read_count(bytes: &[u8], max: u64) -> Result<u64, ReplayLineFault>
    ensures value { result ≡ count_in max bytes.now }
    ensures some { IfOk result (λ count. 1 ≤ count) }
    ensures within { IfOk result (λ count. count ≤ max) }
{
    match read_number(bytes, max) {
        Ok(0) | Err(_) => Err(ReplayLineFault::BadNumber),
        Ok(count) => Ok(count),
    }
}

fn read_replay_key(bytes: &[u8]) -> Result<u64, ReplayLineFault>
    ensures value { result ≡ replay_key_in bytes.now }
    ensures within { IfOk result (λ key. key ≤ greatest_key) }
{
    match read_key(bytes) {
        Ok(key) => Ok(key),
        Err(NumberFault::NotANumber) => Err(ReplayLineFault::BadNumber),
        Err(NumberFault::TooLarge) => Err(ReplayLineFault::KeyTooLarge),
    }
}
