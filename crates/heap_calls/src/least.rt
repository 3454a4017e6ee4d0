//! The least number of purges after which what is searched for is there.

ghost use Rattle.std.specs.Prelude.{◌≡◌, ◌≤◌, ◌<◌, ℕ, Bool, true, false, List, nat_lt};
ghost use Rattle.block_store.specs.Block.{Block};
ghost use Rattle.block_store.specs.Compact.{least_or_last};
ghost use Rattle.block_store.specs.Fewest.{IsFewest, serves};
ghost use Rattle.block_store.specs.Sparing.{most_purges};
ghost use Rattle.block_store.specs.declared.measures.TheConstants.{GREATEST_ZONE};

use block_store::{BlockStore, GREATEST_ZONE, Sparing};

/// What is searched for in a zone after a number of purges.
pub trait Sought: Copy {
    /// What has to be known of the zone.
    ghost Allows: { Self → List Block → Type 0 };

    /// Whether what is searched for is there after a number of purges.
    ghost is_there: { Self → List Block → ℕ → Bool };

    /// How many purges there can be.
    ghost most: { Self → List Block → ℕ };

    /// Reports whether what is searched for is there after `purges` purges.
    fn is_there_after<S: BlockStore>(&self, store: &S, purges: u32) -> bool
        requires { Allows self.now (S.zone store.now) }
        ensures { result ≡ is_there self.now (S.zone store.now) purges };

    /// Reports whether there can be a purge at all.
    fn goes_on<S: BlockStore>(&self, store: &S) -> bool
        requires { Allows self.now (S.zone store.now) }
        ensures more { result ≡ nat_lt 0 (most self.now (S.zone store.now)) }
        ensures few { most self.now (S.zone store.now) ≤ GREATEST_ZONE };

    /// Returns how many purges there can be.
    fn most_purges<S: BlockStore>(&self, store: &S) -> u32
        requires { Allows self.now (S.zone store.now) }
        ensures { result ≡ most self.now (S.zone store.now) };

    /// What is there after some purges is there after more.
    ghost rises: { (sought : Self) (zone : List Block) (k m : ℕ) → Allows sought zone → k ≤ m
        → is_there sought zone k ≡ true → is_there sought zone m ≡ true };

    /// Once every block that may be purged is purged, a further purge changes nothing.
    ghost ends: { (sought : Self) (zone : List Block) (k : ℕ) → Allows sought zone
        → most sought zone ≤ k
        → is_there sought zone k ≡ is_there sought zone (most sought zone) };
}

/// Whether what is searched for is there after some number of purges, and the least such number, or
/// the number of all purges that there can be.
#[derive(Clone, Copy)]
pub struct Searched {
    pub there: bool,
    pub purges: u32,
}

/// Finds the least number of purges after which what is searched for is there, or all that there
/// can be where none serve.
pub fn least_search<S: BlockStore, L: Sought>(store: &S, sought: &L) -> Searched
    requires { L.Allows sought.now (S.zone store.now) }
    ensures least { result.purges ≡ least_or_last (L.is_there sought.now (S.zone store.now))
        (L.most sought.now (S.zone store.now)) }
    ensures there { result.there ≡ L.is_there sought.now (S.zone store.now) result.purges }
    ensures few { result.purges ≤ GREATEST_ZONE }
{
    if sought.is_there_after(store, 0) {
        return Searched {
            there: true,
            purges: 0,
        };
    }
    if !sought.goes_on(store) {
        return Searched {
            there: false,
            purges: 0,
        };
    }
    let there = sought.is_there_after(store, GREATEST_ZONE);
    let most = sought.most_purges(store);
    if !there {
        return Searched {
            there,
            purges: most,
        };
    }
    Searched {
        there,
        purges: fewest_within(store, sought, most),
    }
}

/// Finds the least number of purges after which what is searched for is there, where it is there
/// after `enough`, and not before any purge. The numbers double until it is there; then what lies
/// between the last two is halved.
fn fewest_within<S: BlockStore, L: Sought>(store: &S, sought: &L, enough: u32) -> u32
    requires allows { L.Allows sought.now (S.zone store.now) }
    requires after_none { L.is_there sought.now (S.zone store.now) 0 ≡ false }
    requires enough { L.is_there sought.now (S.zone store.now) enough ≡ true }
    ensures { IsFewest (L.is_there sought.now (S.zone store.now)) result }
{
    let mut before = 0;
    let mut purges = enough;
    while purges - before > 1 {
        let step = ((purges - before) / 2).min(before + 1);
        let middle = before + step;
        if sought.is_there_after(store, middle) {
            purges = middle;
        } else {
            before = middle;
        }
    }
    purges
}

/// Reports whether any block may be purged.
pub fn any_goes<S: BlockStore>(store: &S, sparing: Sparing) -> bool
    ensures more { result ≡ nat_lt 0 (most_purges sparing (S.zone store.now)) }
    ensures few { most_purges sparing (S.zone store.now) ≤ GREATEST_ZONE }
{
    store.next_purgeable(sparing).is_some()
}

/// Counts the purges after which a run has at least `bytes` free bytes: the least number that
/// serves, or all that there can be where none serves.
pub fn count_for_run<S: BlockStore>(store: &S, bytes: u32, sparing: Sparing) -> Searched
    ensures least { result.purges ≡ least_or_last (serves bytes sparing (S.zone store.now))
        (most_purges sparing (S.zone store.now)) }
    ensures there { result.there ≡ serves bytes sparing (S.zone store.now) result.purges }
    ensures few { result.purges ≤ GREATEST_ZONE }
{
    match store.fewest_purges(bytes, sparing) {
        Some(purges) => Searched {
            there: true,
            purges,
        },
        None => Searched {
            there: false,
            purges: store.purgeable(sparing),
        },
    }
}
