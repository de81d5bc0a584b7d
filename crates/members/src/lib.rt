// Members of a group: sets of them as bits of a number, quorums, and the ballots that each of them makes.
#![tactic(auto)]

mod table;

ghost use Rattle.std.specs.Prelude.{◌≡◌};
ghost use Rattle.members.specs.Sets.{has, insert, count_in, fits_group};
ghost use Rattle.members.specs.Groups.{group_size, quorum_of};
ghost use Rattle.members.specs.Ballots.{owns, owner_of, next_ballot};

use table::COUNTS;

// The most members that a group has: they are 0 to 8.
pub const MEMBERS: u64 = 9;

// The largest id that can own a ballot.
const LAST_OWNER: u64 = 254;

// The last round of ballots, 2^56 - 1: a ballot above it does not fit 64 bits.
const LAST_ROUND: u64 = 72057594037927935;

// Whether a member is in a set.
// Kept: here and below the tests of a member past 8, a set past 511, a group past 63, since the promises speak of every number (`has`, `insert`, `fits_group`).
#[tactic(auto, unfolding(crate::specs::Sets::has))]
pub fn contains(set: u64, member: u64) -> bool
    ensures { result ≡ has set member }
{
    member < MEMBERS && (set >> member) % 2 == 1
}

// The set with a member put in.
#[tactic(auto, using(crate::specs::Laws::bit_small), unfolding(crate::specs::Sets::insert))]
pub fn with(set: u64, member: u64) -> u64
    ensures { result ≡ insert set member }
{
    if 511 < set || MEMBERS <= member || contains(set, member) {
        set
    } else {
        set + (1 << member)
    }
}

// How many of the members 0 to 8 are in a set: what the table says of its bits 0 to 8.
pub fn count(set: u64) -> u64
    ensures { result ≡ count_in set }
{
    u64::from(COUNTS[(set % 512) as usize])
}

// Whether a set has no member outside a group of n.
#[tactic(auto, using(crate::specs::Laws::within_all, crate::specs::Laws::within_shift))]
pub fn within(set: u64, n: u64) -> bool
    ensures { result ≡ fits_group set n }
{
    63 < n || set >> n == 0
}

// Whether a group may have n members.
pub fn is_group_size(n: u64) -> bool
    ensures { result ≡ group_size n }
{
    n <= MEMBERS && n % 2 == 1
}

// How many members of a group of n are a quorum.
pub fn quorum(n: u64) -> u64
    ensures { result ≡ quorum_of n }
{
    n / 2 + 1
}

// Who made a ballot; none where the remainder is 0.
pub fn owner_of(ballot: u64) -> Option<u64>
    ensures { result ≡ owner_of ballot }
{
    (ballot % 256).checked_sub(1)
}

// Whether a member made a ballot.
pub fn is_owner(ballot: u64, member: u64) -> bool
    ensures { result ≡ owns ballot member }
{
    owner_of(ballot) == Some(member)
}

// The ballot that a member makes above the largest that it has seen; none (answer 8) at the last round, and to an id above 254.
pub fn next_ballot(max: u64, id: u64) -> Option<u64>
    ensures { result ≡ next_ballot max id }
{
    let round = max / 256;
    if LAST_OWNER < id || round == LAST_ROUND {
        return None;
    }
    Some((round + 1) * 256 + id + 1)
}
