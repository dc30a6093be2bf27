//! The steps on the table, one function for each kind: each is one atomic operation on one word.

ghost use Rattle.std.specs.Prelude.{◌≡◌, ◌≢◌, ◌<◌};
ghost use Rattle.arena_rule.specs.Fits.{FitsStep};
ghost use Rattle.arena_rule.specs.Owing.{CanOwe, CanGive};
ghost use Rattle.tree_rule.specs.Plays.{IsStep, IsOwing, IsGiving};
ghost use Rattle.tree_rule.specs.Seats.{IsSeatOf};
ghost use Rattle.tree_words.specs.declared.steps.Op.TheVariants.{Draw, Look, Claim, Write};
ghost use Rattle.tree_words.specs.declared.steps.Op.TheVariants.{Publish, Add, Note, Done};

use super::plays::{Adds, Claims, Draws, Gives, Looks, Notes, Owed, Owes, Publishes, Writes};
use super::rule::SharedWords;
use arena_rule::Account;
use atomic_table::Seat;
use std::marker::Brand;
use tree_words::Op;
use tree_words::layout::{NEXT_AT, RECORDS_AT, TICKET_AT, VISIT};

// Adds 1 to TICKET.
#[inline(always)]
fn draw(shared: &SharedWords, seat: &mut Seat<u8, Account>) -> u64
    requires own { IsSeatOf shared.now.table_id seat.old }
    requires fits { FitsStep seat.old.me.0.view Draw }
    ensures table { seat.new.table_id ≡ seat.old.table_id }
    ensures told { IsStep seat.old.me Draw result seat.new.me }
{
    shared.fetch_add::<Draws>(seat, TICKET_AT, 1)
}

// Reads a word.
#[inline(always)]
fn look(shared: &SharedWords, seat: &mut Seat<u8, Account>, i: u32) -> u64
    requires own { IsSeatOf shared.now.table_id seat.old }
    requires fits { FitsStep seat.old.me.0.view (Look i) }
    ensures table { seat.new.table_id ≡ seat.old.table_id }
    ensures told { IsStep seat.old.me (Look i) result seat.new.me }
{
    shared.load::<Looks>(seat, i as usize)
}

// Adds a block's size to NEXT.
#[inline(always)]
fn claim(shared: &SharedWords, seat: &mut Seat<u8, Account>, size: u32) -> u64
    requires own { IsSeatOf shared.now.table_id seat.old }
    requires fits { FitsStep seat.old.me.0.view (Claim size) }
    ensures table { seat.new.table_id ≡ seat.old.table_id }
    ensures told { IsStep seat.old.me (Claim size) result seat.new.me }
{
    shared.fetch_add::<Claims>(seat, NEXT_AT, size as u64)
}

// Stores a word of the held block. It answers 0.
#[inline(always)]
fn write(shared: &SharedWords, seat: &mut Seat<u8, Account>, i: u32, value: u64) -> u64
    requires own { IsSeatOf shared.now.table_id seat.old }
    requires fits { FitsStep seat.old.me.0.view (Write i value) }
    ensures table { seat.new.table_id ≡ seat.old.table_id }
    ensures told { IsStep seat.old.me (Write i value) result seat.new.me }
{
    shared.store::<Writes>(seat, i as usize, value);
    0
}

// Puts the held block into a link that is 0.
#[inline(always)]
fn publish(shared: &SharedWords, seat: &mut Seat<u8, Account>, link: u32, block: u32) -> u64
    requires own { IsSeatOf shared.now.table_id seat.old }
    requires fits { FitsStep seat.old.me.0.view (Publish link block) }
    ensures table { seat.new.table_id ≡ seat.old.table_id }
    ensures told { IsStep seat.old.me (Publish link block) result seat.new.me }
{
    shared.compare_exchange::<Publishes>(seat, link as usize, 0, block as u64)
}

// Adds a visit to a count, and a win if the flag says so.
#[inline(always)]
fn add(shared: &SharedWords, seat: &mut Seat<u8, Account>, i: u32, won: bool) -> u64
    requires own { IsSeatOf shared.now.table_id seat.old }
    requires fits { FitsStep seat.old.me.0.view (Add i won) }
    ensures table { seat.new.table_id ≡ seat.old.table_id }
    ensures told { IsStep seat.old.me (Add i won) result seat.new.me }
{
    shared.fetch_add::<Adds>(seat, i as usize, VISIT + u64::from(won))
}

// Stores a record. It answers 0.
#[inline(always)]
fn note(shared: &SharedWords, seat: &mut Seat<u8, Account>, k: u32, value: u64) -> u64
    requires own { IsSeatOf shared.now.table_id seat.old }
    requires fits { FitsStep seat.old.me.0.view (Note k value) }
    ensures table { seat.new.table_id ≡ seat.old.table_id }
    ensures told { IsStep seat.old.me (Note k value) result seat.new.me }
{
    shared.store::<Notes>(seat, RECORDS_AT + k as usize, value);
    0
}

// Begins to owe an add that the caller picks: a load of a word, whose answer is not looked at.
#[inline(always)]
fn load_owing<B: Owed>(
    shared: &SharedWords,
    seat: &mut Seat<u8, Account>,
    at: u32,
    word: u32,
    won: bool,
)
    requires picked { B.add ≡ record { word = word; won = won } }
    requires own { IsSeatOf shared.now.table_id seat.old }
    requires inside { at < shared.now.table_id.words }
    requires can { CanOwe seat.old.me.0 (record { word = word; won = won }) }
    ensures table { seat.new.table_id ≡ seat.old.table_id }
    ensures told { IsOwing seat.old.me (record { word = word; won = won }) seat.new.me }
{
    shared.load::<Owes<B>>(seat, at as usize);
}

/// Begins to owe an add to a seen word. It loads the word `at`, which changes nothing.
#[inline(always)]
pub(crate) fn owe(shared: &SharedWords, seat: &mut Seat<u8, Account>, at: u32, word: u32, won: bool)
    requires own { IsSeatOf shared.now.table_id seat.old }
    requires inside { at < shared.now.table_id.words }
    requires can { CanOwe seat.old.me.0 (record { word = word; won = won }) }
    ensures table { seat.new.table_id ≡ seat.old.table_id }
    ensures told { IsOwing seat.old.me (record { word = word; won = won }) seat.new.me }
{
    load_owing::<Brand>(shared, seat, at, word, won);
}

/// Gives all that the seat owes to a word.
#[inline(always)]
pub(crate) fn give(shared: &SharedWords, seat: &mut Seat<u8, Account>, word: u32, amount: u64)
    requires own { IsSeatOf shared.now.table_id seat.old }
    requires can { CanGive seat.old.me.0 word amount }
    ensures table { seat.new.table_id ≡ seat.old.table_id }
    ensures told { IsGiving seat.old.me word amount seat.new.me }
{
    shared.fetch_add::<Gives>(seat, word as usize, amount);
}

/// One step, by its kind.
#[inline(always)]
pub(crate) fn step(shared: &SharedWords, seat: &mut Seat<u8, Account>, op: Op) -> u64
    requires own { IsSeatOf shared.now.table_id seat.old }
    requires fits { FitsStep seat.old.me.0.view op }
    requires step { op ≢ Done }
    ensures table { seat.new.table_id ≡ seat.old.table_id }
    ensures told { IsStep seat.old.me op result seat.new.me }
{
    match op {
        Op::Draw => draw(shared, seat),
        Op::Look(i) => look(shared, seat, i),
        Op::Claim(size) => claim(shared, seat, size),
        Op::Write(i, value) => write(shared, seat, i, value),
        Op::Publish(link, block) => publish(shared, seat, link, block),
        Op::Add(i, won) => add(shared, seat, i, won),
        Op::Note(k, value) => note(shared, seat, k, value),
        Op::Done => unreachable!(),
    }
}
