// The replica's numbers: what is read off them, and each way in which a call changes them.
ghost use Rattle.std.specs.Prelude.{◌≡◌, ◌||◌, ltb, eqb};
ghost use Rattle.decide.specs.Scalars.{leads, is_member, is_peer, quorum, urgent, disallowed, strict, may_be, fit_scalars, ignores_timeout, notifies};
ghost use Rattle.decide.specs.Scalars.{followed, steps_down, with_prepared, with_bars, with_log_size, with_peer_max, stepped_up};

use crate::Scalars;

// A bit of a replica's options: an urgent commit notice.
pub const URGENT: u64 = 1;

// A bit of a replica's options: step-up disallowed.
pub const DISALLOWED: u64 = 2;

// A bit of a replica's options: the strict kind.
pub const STRICT: u64 = 4;

// 2^32: the last slot that a window may start at.
pub const LAST_START: u64 = 4294967296;

// No leader is known.
pub const NOBODY: u64 = 255;

// 2^64 - 1: the bar of a member of which nothing is known.
pub const UNKNOWN_BAR: u64 = 18446744073709551615;

// Whether a new replica may have these numbers.
pub fn may_be(id: u64, group: u64, start: u64, options: u64) -> bool
    ensures { result ≡ may_be id group start options }
{
    members::is_group_size(group) && id < group && start <= LAST_START && options <= 7
}

// Whether the leader is nobody or a member.
fn known_leader(leader: u64, group: u64) -> bool
    ensures { result ≡ (eqb leader 255 || ltb leader group) }
{
    leader == NOBODY || leader < group
}

impl Scalars {
    // Whether self leads.
    pub fn leads(self) -> bool
        ensures { result ≡ leads self }
    {
        self.leader == self.id
    }

    pub(crate) fn is_member(self, m: u64) -> bool
        ensures { result ≡ is_member self m }
    {
        m < self.group
    }

    // Whether m is a member other than self.
    pub fn is_peer(self, m: u64) -> bool
        ensures { result ≡ is_peer self m }
    {
        m < self.group && m != self.id
    }

    pub fn quorum(self) -> u64
        ensures { result ≡ quorum self }
    {
        members::quorum(self.group)
    }

    pub fn urgent(self) -> bool
        ensures { result ≡ urgent self }
    {
        self.options / URGENT % 2 == 1
    }

    pub fn disallowed(self) -> bool
        ensures { result ≡ disallowed self }
    {
        self.options / DISALLOWED % 2 == 1
    }

    // Whether the replica is of the strict kind.
    pub fn strict(self) -> bool
        ensures { result ≡ strict self }
    {
        self.options / STRICT % 2 == 1
    }

    // Whether the numbers are fit for a log of so many slots.
    // Kept: the length and its test: what may not change: any length may be given, and `fit_scalars` says that one past 64 is unfit.
    pub fn is_fit(self, len: usize) -> bool
        ensures { result ≡ fit_scalars self len }
    {
        if !members::is_group_size(self.group) {
            return false;
        }
        if self.group <= self.id {
            return false;
        }
        if LAST_START < self.start {
            return false;
        }
        if 64 < len {
            return false;
        }
        if !known_leader(self.leader, self.group) {
            return false;
        }
        if self.exec_bar < self.start {
            return false;
        }
        if self.commit_bar < self.exec_bar {
            return false;
        }
        let end = self.start + len as u64;
        if end < self.commit_bar {
            return false;
        }
        if self.accept_bar < self.start {
            return false;
        }
        self.accept_bar <= end
    }

    // Whether a timeout is ignored: step-up is disallowed, or a leader is known and is not the timeout's source.
    pub fn ignores_timeout(self, source: u64) -> bool
        ensures { result ≡ ignores_timeout self source }
    {
        self.leader != NOBODY && self.leader != source || self.disallowed()
    }

    // Whether a leader that notifies urgently has committed its whole log, at the ballot that it prepared.
    pub fn notifies(self, bar: u64, end: u64) -> bool
        ensures { result ≡ notifies self bar end }
    {
        bar == end
            && self.leader == self.id
            && 0 < self.bal_prepared
            && self.bal_prepared == self.bal_max_seen
            && self.urgent()
    }

    // A larger ballot is followed, and who sent it.
    pub fn followed(mut self, peer: u64, ballot: u64) -> Scalars
        ensures { result ≡ followed self peer ballot }
    {
        if self.bal_max_seen < ballot {
            self.leader = peer;
            self.bal_max_seen = ballot;
        }
        self
    }

    // Whether following a ballot makes a leader none.
    pub fn steps_down(self, ballot: u64) -> bool
        ensures { result ≡ steps_down self ballot }
    {
        self.bal_max_seen < ballot && self.leader == self.id
    }

    pub(crate) fn with_prepared(mut self, ballot: u64) -> Scalars
        ensures { result ≡ with_prepared self ballot }
    {
        self.bal_prepared = ballot;
        self
    }

    pub fn with_bars(mut self, accept: u64, commit: u64, exec: u64) -> Scalars
        ensures { result ≡ with_bars self accept commit exec }
    {
        self.accept_bar = accept;
        self.commit_bar = commit;
        self.exec_bar = exec;
        self
    }

    pub fn with_offset(mut self, offset: u64) -> Scalars
        ensures { result ≡ with_log_size self offset }
    {
        self.wal_offset = offset;
        self
    }

    pub(crate) fn with_peer_max(mut self, bar: u64) -> Scalars
        ensures { result ≡ with_peer_max self bar }
    {
        self.peer_accept_max = bar;
        self
    }

    // Self leads at a ballot of its own that is not prepared yet, and knows no member's accept bar.
    pub fn stepped_up(mut self, trigger: u64, ballot: u64) -> Scalars
        ensures { result ≡ stepped_up self trigger ballot }
    {
        self.lead_trigger = trigger;
        self.leader = self.id;
        self.bal_prep_sent = ballot;
        self.bal_prepared = 0;
        self.bal_max_seen = ballot;
        self.peer_accept_max = UNKNOWN_BAR;
        self
    }
}
