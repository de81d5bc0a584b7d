// The peer accept table: the accept bar that each member last told its leader.
ghost use Rattle.std.specs.Prelude.{◌≡◌, ◌||◌, eqb};
ghost use Rattle.decide.specs.Bars.{unknown_bars, bar_of, has_entry, not_above, least_majority, with_bar, with_fallen};
ghost use Rattle.decide.specs.Turns.{entry_not_above, lesser};

use crate::numbers::UNKNOWN_BAR;
use crate::{PeerBars, Scalars};
use members::MEMBERS;

// Nothing known of any member; `own` says whether self has an entry.
pub fn unknown_bars(own: bool) -> PeerBars
    ensures { result ≡ unknown_bars own }
{
    PeerBars {
        own,
        bars: [UNKNOWN_BAR; 9],
    }
}

impl PeerBars {
    // A member's bar, 0 where there is no such place.
    // Kept: this test, here and below: what may not change: `PeerBars::with_bar` and `PeerBars::with_fallen` take any number for m.
    pub(crate) fn bar_of(self, m: u64) -> u64
        ensures { result ≡ bar_of self m }
    {
        if 8 < m {
            return 0;
        }
        self.bars[m as usize]
    }

    // Whether the table has an entry for m: each other member, and self once it has one.
    pub(crate) fn has_entry(self, sc: Scalars, m: u64) -> bool
        ensures { result ≡ has_entry sc self m }
    {
        m < sc.group && (m != sc.id || self.own)
    }

    // Whether self has an entry, once m has one.
    fn owns(self, sc: Scalars, m: u64) -> bool
        ensures { result ≡ (self.own || eqb m sc.id) }
    {
        self.own || m == sc.id
    }

    // The table with a member's bar.
    pub fn with_bar(mut self, sc: Scalars, m: u64, bar: u64) -> PeerBars
        ensures { result ≡ with_bar sc self m bar }
    {
        self.own = self.owns(sc, m);
        if 8 < m {
            return self;
        }
        let at = m as usize;
        self.bars[at] = bar;
        self
    }

    // Whether m has an entry that is not above a bar.
    fn is_not_above(self, sc: Scalars, bar: u64, m: u64) -> bool
        ensures { result ≡ entry_not_above sc self bar m }
    {
        self.has_entry(sc, m) && self.bar_of(m) <= bar
    }

    // How many entries are not above a bar.
    pub(crate) fn not_above(self, sc: Scalars, bar: u64) -> u64
        ensures { result ≡ not_above sc self bar }
    {
        (0..MEMBERS)
            .filter(|m| self.is_not_above(sc, bar, *m))
            .count() as u64
    }

    // The lesser of a bar and m's entry, where a quorum of entries is not above that.
    fn lesser(self, sc: Scalars, m: u64, least: u64) -> u64
        ensures { result ≡ lesser sc self m least }
    {
        if !self.has_entry(sc, m) {
            return least;
        }
        let bar = self.bar_of(m);
        if least <= bar {
            return least;
        }
        if self.not_above(sc, bar) < sc.quorum() {
            return least;
        }
        bar
    }

    // The least entry that a quorum of entries is not above.
    pub(crate) fn least_majority(self, sc: Scalars) -> u64
        ensures { result ≡ least_majority sc self 9 }
    {
        let mut least = UNKNOWN_BAR;
        // Kept: the new form is no plainer: `(0..MEMBERS).fold(UNKNOWN_BAR, |least, m| self.lesser(sc, m, least))` names the same values once more.
        for m in 0..MEMBERS {
            least = self.lesser(sc, m, least);
        }
        least
    }

    // peer_accept_max, which is looked at only when a member's bar falls, and only ever falls.
    pub fn with_fallen(self, sc: Scalars, m: u64, bar: u64) -> Scalars
        ensures { result ≡ with_fallen sc self m bar }
    {
        if !self.has_entry(sc, m) {
            return sc;
        }
        if self.bar_of(m) <= bar {
            return sc;
        }
        let after = self.with_bar(sc, m, bar);
        let least = after.least_majority(sc);
        if sc.peer_accept_max <= least {
            return sc;
        }
        sc.with_peer_max(least)
    }
}
