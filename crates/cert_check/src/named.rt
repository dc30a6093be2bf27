//! What is asked of the entries that numbers name.

ghost use Rattle.std.specs.Prelude.{◌≡◌, ℕ, ◌==◌, ◌&&◌, nat_lt};
ghost use Rattle.std.specs.List.{list_all};
ghost use Rattle.hex_cells.specs.Sets.{has};
ghost use Rattle.hex_cells.specs.declared.board_size.TheConstants.{MOST_CELLS};
ghost use Rattle.win_cert.specs.Entries.{carriers_of, entries_at, entry_at};
ghost use Rattle.win_cert.specs.Statements.{is_edge_entry, may_take};
ghost use Rattle.win_cert.specs.declared.statements.Statement.{Statement};
ghost use Rattle.win_cert.specs.Statements.{same_ends, share_cell};
ghost use Rattle.cert_check.specs.Keeping.{TakesKind, entry_of};

use super::checkers::Checker;
use super::given::Given;
use conn_store::Kind;
use hex_cells::{CellSet, MOST_CELLS};

impl Checker {
    /// Whether each number is that of an entry of this kind, and of two elements if they must
    /// differ.
    pub fn takes_all(&self, numbers: &[u32], kind: Kind, apart: bool) -> bool
        ensures { (s : Statement) → TakesKind s kind apart
            → result ≡ list_all (λ i. may_take s (entry_at self.now i)) numbers.now }
    {
        'numbers: for &number in numbers {
            if !self.takes(number, kind, apart) {
                return false;
            }
        }
        true
    }

    // Whether the number is that of such an entry.
    fn takes(&self, number: u32, kind: Kind, apart: bool) -> bool
        ensures { (s : Statement) → TakesKind s kind apart
            → result ≡ may_take s (entry_at self.now number) }
    {
        match self.entry(number) {
            Some(given) => given.kind == kind && !(apart && given.x == given.y),
            None => false,
        }
    }

    /// Whether the entries with these numbers stand in this scope.
    pub fn are_in_scope(&self, numbers: &[u32], scope: CellSet) -> bool
        ensures { result ≡ list_all (λ a. a.scope == scope) (entries_at self.now numbers.now) }
    {
        'numbers: for &number in numbers {
            if let Some(given) = self.entry(number) {
                if given.scope != scope {
                    return false;
                }
            }
        }
        true
    }

    /// Whether the entries with these numbers are entries of the player's edges.
    pub fn are_of_edges(&self, numbers: &[u32]) -> bool
        ensures { result
            ≡ list_all (is_edge_entry self.now.base) (entries_at self.now numbers.now) }
    {
        'numbers: for &number in numbers {
            if let Some(given) = self.entry(number) {
                if !given.of_edges {
                    return false;
                }
            }
        }
        true
    }

    /// The cells of the carriers of the entries with these numbers.
    pub fn carriers(&self, numbers: &[u32]) -> CellSet
        ensures { result ≡ carriers_of (entries_at self.now numbers.now) }
    {
        let mut cells = CellSet::none();
        'numbers: for &number in numbers {
            if let Some(given) = self.entry(number) {
                cells = cells.union(given.carrier);
            }
        }
        cells
    }

    /// Whether a cell is in all the carriers of the entries with these numbers.
    pub fn shares_cell(&self, numbers: &[u32]) -> bool
        ensures { result ≡ share_cell (entries_at self.now numbers.now) }
    {
        !self.common(numbers).is_empty()
    }

    // The cells that are in all these carriers.
    fn common(&self, numbers: &[u32]) -> CellSet
        ensures { (k : ℕ) → has result k
            ≡ (nat_lt k MOST_CELLS
            && list_all (λ a. has a.carrier k) (entries_at self.now numbers.now)) }
    {
        let mut cells = CellSet::of_bits((1u128 << MOST_CELLS) - 1);
        'numbers: for &number in numbers {
            if let Some(given) = self.entry(number) {
                cells = cells.meet(given.carrier);
            }
        }
        cells
    }

    /// Whether the entries with these numbers have all the elements of this one.
    pub fn have_ends_of(&self, first: &Given, numbers: &[u32]) -> bool
        ensures { result
            ≡ list_all (same_ends (entry_of first.now)) (entries_at self.now numbers.now) }
    {
        'numbers: for &number in numbers {
            if let Some(given) = self.entry(number) {
                if !first.has_ends_of(&given) {
                    return false;
                }
            }
        }
        true
    }
}
