//! Entries between the edges of each player, by his stones.

ghost use Rattle.std.specs.Prelude.{◌≡◌, ℕ, [], filter, reverse, IfOk, IsSome, OnOk};
ghost use Rattle.std.specs.List.{list_any};
ghost use Rattle.hex_cells.specs.Sets.{has};
ghost use Rattle.edge_tables.specs.Entries.{AgreeBut, IsNarrowestInside};
ghost use Rattle.edge_tables.specs.Entries.{entries_of, is_common, is_inside, list_of};
ghost use Rattle.edge_tables.specs.Entries.{makes_needless, newest_beside, with_newest};

use super::entries::{EdgeEntry, Key, add_last};
use super::stops::FinderStop;
use hex_cells::CellSet;
use indexmap::IndexMap;
use std::alloc::{AllocError, Global};

/// The most entries of the tables: some 800 MB.
const MOST_ENTRIES: usize = 8_000_000;

/// The entries that are known.
#[derive(Drop)]
pub struct Tables {
    known: IndexMap<Key, Vec<EdgeEntry>>,
    count: usize,
    alloc: Global,
}

impl Tables {
    /// Tables without entries.
    pub fn new(alloc: Global) -> Tables
        ensures { (key : Key) → entries_of result key ≡ [] }
    {
        Tables {
            known: IndexMap::new(alloc),
            count: 0,
            alloc,
        }
    }

    /// The entries of a key, the newest last.
    pub fn entries(&self, key: &Key) -> &[EdgeEntry]
        ensures { result.now ≡ entries_of self.now key.now }
    {
        match self.known.get(key) {
            Some(list) => list,
            None => &[],
        }
    }

    /// Whether an entry of the key lies inside the region.
    pub fn has(&self, key: &Key, region: CellSet) -> bool
        ensures { result ≡ list_any (is_inside region) (entries_of self.now key.now) }
    {
        self.entries(key)
            .iter()
            .any(|entry| entry.lies_inside(region))
    }

    /// The cells of the region that all entries of the key inside it have in common.
    pub fn common(&self, key: &Key, region: CellSet) -> CellSet
        ensures { (k : ℕ) → has result k ≡ is_common region (entries_of self.now key.now) k }
    {
        let entries = self.entries(key);
        let mut common = region;
        for entry in entries {
            if entry.lies_inside(region) {
                common = common.meet(entry.carrier);
            }
        }
        common
    }

    /// The entry of the key inside the region that is the narrowest, the newest of several.
    pub fn narrowest(&self, key: &Key, region: CellSet) -> Option<EdgeEntry>
        ensures { IsNarrowestInside region (entries_of self.now key.now) result }
    {
        let entries = self.entries(key);
        let mut best: Option<EdgeEntry> = None;
        let mut least = u64::MAX;
        for entry in entries {
            if entry.lies_inside(region) && entry.width() <= least {
                best = Some(*entry);
                least = entry.width();
            }
        }
        best
    }

    /// The entries of the key inside the region, the newest first.
    pub fn list(
        &self,
        alloc: Global,
        key: &Key,
        region: CellSet,
    ) -> Result<Vec<EdgeEntry>, AllocError>
        ensures { let es = entries_of self.now key.now in
            IfOk result (λ list. list.items ≡ filter (is_inside region) (reverse es)) }
    {
        let newest_first = self.entries(key).iter().rev().copied();
        newest_first
            .filter(|entry| entry.lies_inside(region))
            .collect(alloc)
    }

    /// Adds an entry, unless one that is there makes it needless, and takes away those that it
    /// makes needless. A full table stays as it was; if memory runs out, those may be gone and the
    /// entry not there.
    pub fn put(&mut self, key: &Key, entry: &EdgeEntry) -> Result<(), FinderStop>
        ensures put { let es = entries_of self.old key.now in
            OnOk result (entries_of self.new key.now ≡ with_newest entry.now es) }
        ensures aside { AgreeBut key.now self.old self.new }
        ensures full { result ≡ Err FinderStop.Full → self.new ≡ self.old }
    {
        if self.has_better(key, entry) {
            return Ok(());
        }
        if MOST_ENTRIES <= self.count {
            return Err(FinderStop::Full);
        }
        let others = self.count.saturating_sub(self.entries(key).len());
        self.add(key, entry)?;
        self.count = others.saturating_add(self.entries(key).len());
        Ok(())
    }

    // Whether an entry of the key makes this one needless.
    fn has_better(&self, key: &Key, entry: &EdgeEntry) -> bool
        ensures { let es = entries_of self.now key.now in
            result ≡ list_any (λ other. makes_needless other entry.now) es }
    {
        self.entries(key)
            .iter()
            .any(|other| other.makes_needless(entry))
    }

    // Adds an entry, and takes away those that it makes needless.
    fn add(&mut self, key: &Key, entry: &EdgeEntry) -> Result<(), AllocError>
        ensures added { let es = entries_of self.old key.now in
            OnOk result (entries_of self.new key.now ≡ newest_beside entry.now es) }
        ensures aside { AgreeBut key.now self.old self.new }
    {
        self.open(key)?;
        match self.known.get_mut(key) {
            Some(list) => add_last(list, entry),
            None => Ok(()),
        }
    }

    // Makes a list for the key, if there is none.
    fn open(&mut self, key: &Key) -> Result<(), AllocError>
        ensures opened { OnOk result (IsSome (list_of self.new key.now)) }
        ensures same { (k : Key) → entries_of self.new k ≡ entries_of self.old k }
    {
        if self.known.get(key).is_none() {
            self.known.insert(*key, Vec::new(self.alloc))?;
        }
        Ok(())
    }
}
