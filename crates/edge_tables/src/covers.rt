//! Covers: few carriers that have no cell in common, so that each stone of the opponent's is
//! answered by one of them.

ghost use Rattle.std.specs.Prelude.{◌≡◌, ◌≢◌, vec_len, IfOk, IsTrue};
ghost use Rattle.edge_tables.specs.Covers.{IsCover};

use hex_cells::CellSet;
use std::alloc::{AllocError, Global};
use std::cmp::Reverse;

// So many carriers are tried as the first one. More find little.
const MOST_STARTS: usize = 24;

// The most carriers of a cover: a line of a certificate names at most 127.
const MOST_CHOSEN: usize = 119;

/// What the carriers of a list cost. Some of them are taken, beside which others may cost less.
pub trait Costs {
    /// None is taken.
    fn begin(&mut self);

    /// What greed pays for the carrier at this place beside those that are taken, if there is one.
    fn price(&self, place: usize) -> Option<u64>;

    /// The carrier at this place, if there is one, is taken too: what that adds to the cost.
    fn take(&mut self, place: usize) -> Option<u64>;
}

/// The places of few of these carriers, two at least, that have no cell in common inside the
/// region; none if there are no such. They cost least of what greed finds that begins with one of
/// the first carriers, or with none.
pub fn cover<C: Costs>(
    alloc: Global,
    carriers: &[CellSet],
    region: CellSet,
    costs: &mut C,
) -> Result<Vec<usize>, AllocError>
    ensures apart { IfOk result (λ chosen. IsCover carriers.now region chosen.items) }
    ensures several { IfOk result (λ chosen. vec_len chosen ≢ 1) }
{
    let mut best = Vec::new(alloc);
    let mut least = u64::MAX;
    let starts = carriers.len().min(MOST_STARTS);
    for start in 0..starts + 1 {
        let first = (start < starts).then_some(start);
        let mut chosen = chosen_from(alloc, carriers, region, costs, first)?;
        thin(alloc, carriers, region, costs, &mut chosen)?;
        // (Then all carriers have a cell in common, and no start finds more.)
        if !are_apart(carriers, region, &chosen) {
            break;
        }
        let cost = cost_of(costs, &chosen);
        if 2 <= chosen.len() && cost < least {
            best = chosen;
            least = cost;
        }
    }
    Ok(best)
}

// Carriers by greed, that at `first` before the others, until no other takes a cell from those that
// are left.
fn chosen_from<C: Costs>(
    alloc: Global,
    carriers: &[CellSet],
    region: CellSet,
    costs: &mut C,
    first: Option<usize>,
) -> Result<Vec<usize>, AllocError> {
    let mut chosen = Vec::new(alloc);
    let mut left = region;
    let mut next = first;
    costs.begin();
    for _step in 0..MOST_CHOSEN {
        let place = next.or_else(|| best_gain(carriers, left, costs));
        let Some(place) = place else { break };
        let _cost = costs.take(place);
        chosen.push(place)?;
        left = carriers
            .get(place)
            .map_or(left, |carrier| left.meet(*carrier));
        next = None;
    }
    Ok(chosen)
}

// The place of the carrier that costs least for each cell that it takes from those that are left.
fn best_gain<C: Costs>(carriers: &[CellSet], left: CellSet, costs: &C) -> Option<usize> {
    let mut best = None;
    let (mut best_gain, mut best_price) = (0u64, 1u64);
    for (place, carrier) in carriers.iter().enumerate() {
        let gain = u64::from(left.minus(*carrier).count());
        if 0 < gain
            && let Some(price) = costs.price(place)
            && price.saturating_mul(best_gain) < best_price.saturating_mul(gain)
        {
            best = Some(place);
            (best_gain, best_price) = (gain, price);
        }
    }
    best
}

// Takes away those that are not needed, the dearest beside all first, as long as there are more
// than two. One that is needed stays so as others go.
fn thin<C: Costs>(
    alloc: Global,
    carriers: &[CellSet],
    region: CellSet,
    costs: &C,
    chosen: &mut Vec<usize>,
) -> Result<(), AllocError> {
    let mut dearest_first = chosen.to_vec(alloc)?;
    dearest_first.sort_by_key(|place| Reverse(costs.price(*place)))?;
    for place in dearest_first {
        if 2 < chosen.len() && is_needless(carriers, region, chosen, place) {
            chosen.retain(|other| *other != place);
        }
    }
    Ok(())
}

// Whether the others have no cell in common.
fn is_needless(carriers: &[CellSet], region: CellSet, chosen: &[usize], needless: usize) -> bool {
    let others = chosen.iter().filter(|place| **place != needless);
    let carriers = others.filter_map(|place| carriers.get(*place).copied());
    let common = carriers.fold(region, |common, carrier| common.meet(carrier));
    common.is_empty()
}

/// What the carriers at these places cost together.
pub fn cost_of<C: Costs>(costs: &mut C, places: &[usize]) -> u64 {
    costs.begin();
    let each = places.iter().filter_map(|place| costs.take(*place));
    each.fold(0u64, |sum, cost| sum.saturating_add(cost))
}

// Whether these are places of the list, whose carriers have no cell of the region in common. What
// greed found is tested, so that nothing has to be proved of how it was found.
fn are_apart(carriers: &[CellSet], region: CellSet, chosen: &[usize]) -> bool
    ensures { IsTrue result → IsCover carriers.now region chosen.now }
{
    let mut left = region;
    for place in chosen {
        match carriers.get(*place) {
            Some(carrier) => left = left.meet(*carrier),
            None => return false,
        }
    }
    left.is_empty()
}
