//! A store: the entries of a player on a board, with an index by pair and kind.

ghost use Rattle.std.specs.Prelude.{◌≡◌, ℕ, ◌+◌, ◌<◌, ◌≤◌, ◌↔◌, IfOk, length};
ghost use Rattle.hex_board.specs.Elements.{element_count};
ghost use Rattle.conn_store.specs.Entries.{IsValid};
ghost use Rattle.conn_store.specs.Rules.{FollowsFrom};
ghost use Rattle.conn_store.specs.Stores.{AreTrue, IsDominated, IsPairFull, IsSound, after_put};
ghost use Rattle.conn_store.specs.Stores.{empty_store, held_of, most_of, numbers_of, with_entry};

use super::entries::{Entry, Held, Kind, MOST_ENTRIES, MOST_FULL, MOST_SEMI, Put};
use super::index::{clear_table, has_inside, pair_count, pair_number, push_number};
use super::refusals::Memory;
use hex_board::{Board, Elements};
use hex_cells::Colour;
use std::alloc::Global;
use std::marker::Model;

/// The entries of a player on a board, in the order in which they came.
#[derive(Drop)]
pub struct Store {
    board: Board,
    colour: Colour,
    pub(crate) elements: Elements,
    entries: Vec<Entry>,
    full: Vec<Held>,
    semi: Vec<Held>,
}

impl Model for Store {
    ghost use Rattle.std.specs.Prelude.{vec_capacity};
    ghost use Rattle.conn_store.specs.Stores.{StoreData};
    ghost use Rattle.conn_store.specs.Index.{IsStored};

    ghost Value = { StoreData };

    ghost view = { λ s. record { elements = s.elements; entries = s.entries.items } };

    ghost invariant = { λ s. IsStored s.board s.colour
        (record { elements = s.elements; entries = s.entries.items })
        s.full.items s.semi.items (vec_capacity s.entries) };
}

impl Store {
    /// A store without entries, for the elements of the player on the board. It takes the room
    /// for all entries that may come: [`MOST_FULL`] full and [`MOST_SEMI`] semi ones of each pair
    /// of elements.
    pub fn make(alloc: Global, board: &Board, colour: Colour) -> Result<Store, Memory>
        ensures { IfOk result (λ store. store ≡ empty_store board.now colour) }
    {
        // The board has 1 to 121 cells, and the stones lie on them.
        board.keeps();
        let _stones = board.stones(colour);
        let elements = board.elements(colour);
        let pairs = pair_count(elements.count());
        let none = Held {
            count: 0,
            at: [0; MOST_SEMI],
        };
        let entries = Vec::with_capacity(alloc, (MOST_FULL + MOST_SEMI) * pairs)?;
        let full = vec![in alloc; none; pairs]?;
        let semi = vec![in alloc; none; pairs]?;
        Ok(Store {
            board: *board,
            colour,
            elements,
            entries,
            full,
            semi,
        })
    }

    /// The same as [`Store::make`], in the memory of this store. It takes more only if the new
    /// store has more pairs of elements than each before it in this memory.
    pub fn again(self, board: &Board, colour: Colour) -> Result<Store, Memory>
        ensures { IfOk result (λ store. store ≡ empty_store board.now colour) }
    {
        Store::within(self.entries, self.full, self.semi, board, colour)
    }

    // A store without entries in the memory of these, whatever they hold.
    fn within(
        mut entries: Vec<Entry>,
        mut full: Vec<Held>,
        mut semi: Vec<Held>,
        board: &Board,
        colour: Colour,
    ) -> Result<Store, Memory>
        ensures { IfOk result (λ store. store ≡ empty_store board.now colour) }
    {
        // As in `make`.
        let _size = board.size();
        let _stones = board.stones(colour);
        let elements = board.elements(colour);
        let pairs = pair_count(elements.count());
        entries.clear();
        entries.reserve((MOST_FULL + MOST_SEMI) * pairs)?;
        clear_table(&mut full, pairs)?;
        clear_table(&mut semi, pairs)?;
        Ok(Store {
            board: *board,
            colour,
            elements,
            entries,
            full,
            semi,
        })
    }

    /// Adds an entry, unless the store has one of that pair and kind with a carrier inside the
    /// new one, or the pair has its full number of entries of that kind. The entry is valid, and
    /// follows from entries of the store by the rule that its cause names.
    pub fn add(&mut self, entry: Entry) -> Put
        requires valid { IsValid self.old.elements entry }
        requires follows { FollowsFrom self.old.elements self.old.entries entry }
        ensures dominated { (result ≡ Put.Dominated) ↔ IsDominated self.old entry }
        ensures full { (result ≡ Put.PairFull) ↔ (¬ (IsDominated self.old entry)
            × IsPairFull self.old entry.kind entry.x entry.y) }
        ensures added { (n : ℕ) → result ≡ Put.Added n → n ≡ length self.old.entries }
        ensures after { self.new ≡ after_put self.old entry result }
    {
        let held = self.pair(entry.x, entry.y, entry.kind);
        if has_inside(self.entries(), held, entry.carrier) {
            return Put::Dominated;
        }
        if held.count == entry.kind.most() {
            return Put::PairFull;
        }
        Put::Added(self.append(entry))
    }

    // Puts the entry, of whose kind its pair has less than most, at the end, and answers its
    // number.
    fn append(&mut self, entry: Entry) -> u32
        requires valid { IsValid self.old.elements entry }
        requires follows { FollowsFrom self.old.elements self.old.entries entry }
        requires room { length (numbers_of self.old entry.kind entry.x entry.y)
            < most_of entry.kind }
        ensures number { result ≡ length self.old.entries }
        ensures after { self.new ≡ with_entry self.old entry }
    {
        let pair = pair_number(entry.x, entry.y);
        let number = self.entries.len() as u32;
        match entry.kind {
            Kind::Full => push_number(&mut self.full[pair], number),
            Kind::Semi => push_number(&mut self.semi[pair], number),
        }
        self.entries.push(entry).unwrap();
        number
    }

    /// The numbers of the entries of two elements, the lesser first, and of a kind.
    pub fn held(&self, x: u8, y: u8, kind: Kind) -> Held
        requires order { x < y }
        requires elements { y < element_count self.now.elements }
        ensures numbers { result ≡ held_of (numbers_of self.now kind x y) }
        ensures few { result.count ≤ most_of kind }
    {
        *self.pair(x, y, kind)
    }

    // The same, where the store has them: a copy costs more than the search in it.
    fn pair(&self, x: u8, y: u8, kind: Kind) -> &Held
        requires order { x < y }
        requires elements { y < element_count self.now.elements }
        ensures numbers { result.now ≡ held_of (numbers_of self.now kind x y) }
        ensures few { result.now.count ≤ most_of kind }
    {
        let pair = pair_number(x, y);
        match kind {
            Kind::Full => &self.full[pair],
            Kind::Semi => &self.semi[pair],
        }
    }

    /// Does nothing: that the store is sound, and its entries true, is known after the call.
    #[inline]
    pub fn keeps(&self)
        ensures sound { IsSound self.now }
        ensures true_entries { AreTrue self.now }
    {
        let _entries = self.entries();
    }

    /// The entries, in the order in which they came. Each is valid and follows from earlier ones,
    /// and so it is true.
    pub fn entries(&self) -> &[Entry]
        ensures value { result.now ≡ self.now.entries }
        ensures sound { IsSound self.now }
        ensures true_entries { AreTrue self.now }
        ensures few { length result.now ≤ MOST_ENTRIES }
    {
        &self.entries
    }

    /// The board of whose elements the entries speak.
    pub fn board(&self) -> &Board
        ensures { result.now ≡ self.now.elements.board }
    {
        &self.board
    }

    /// The player.
    pub fn colour(&self) -> Colour
        ensures { result ≡ self.now.elements.player }
    {
        self.colour
    }

    /// The elements of which the entries speak.
    pub fn elements(&self) -> &Elements
        ensures { result.now ≡ self.now.elements }
    {
        &self.elements
    }
}
