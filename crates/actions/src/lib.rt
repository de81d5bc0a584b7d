// Actions: what a call asks its host to do, each written as 18 numbers into a lent room.
#![tactic(auto)]

ghost use Rattle.std.specs.Prelude.{◌≡◌, ◌+◌, ◌*◌, ◌≤◌, ◌<◌, length, take, drop};
ghost use Rattle.actions.specs.Actions.{act, keys_for, no_keys, numbers_of, put_act, says_acts};
ghost use Rattle.actions.specs.Saying.{Said};
ghost use Rattle.actions.specs.Reading.{seen, row_kept, row_keys, read_row, read_act};

// How many actions the room of a call has.
pub const ACTIONS: usize = 192;

// How many numbers an action is.
pub const ROW: usize = 18;

// How many numbers the room of a call has: those of its actions.
pub const ROOM: usize = 3456;

// As a member: all but self.
// Kept: a number, since 01 writes the receiver into the numbers of an action, among those of the members (`everyone`, `numbers_of`).
const EVERYONE: u64 = 255;

// The content of a PrepareBal entry.
#[derive(Clone, Copy, Debug, PartialEq, Eq)]
pub struct Promise {
    pub slot: u64,
    pub ballot: u64,
}

// The content of an AcceptData entry and of an Accept. Its keys stand beside the action.
#[derive(Clone, Copy, Debug, PartialEq, Eq)]
pub struct Proposal {
    pub slot: u64,
    pub ballot: u64,
    pub batch: u64,
    pub count: usize,
}

// The content of a CommitSlot entry: the slot and, since 02's fifth wish, its ballot.
// Kept: it has the fields of `Promise`, but both are public names, each of its own action (docs/HOST.md): a host that makes or matches an `Action` writes them,
// 01 has "structs without arrays in action cases", and `numbers_of` tells the two by their cases.
#[derive(Clone, Copy, Debug, PartialEq, Eq)]
pub struct Mark {
    pub slot: u64,
    pub ballot: u64,
}

// The content of a Prepare.
#[derive(Clone, Copy, Debug, PartialEq, Eq)]
pub struct Ask {
    pub trigger: u64,
    pub ballot: u64,
}

// The content of a PrepareReply: no vote is a voted ballot of 0 with the empty batch.
#[derive(Clone, Copy, Debug, PartialEq, Eq)]
pub struct Promised {
    pub member: u64,
    pub slot: u64,
    pub trigger: u64,
    pub endprep: u64,
    pub ballot: u64,
    pub voted: u64,
    pub batch: u64,
    pub count: usize,
    pub bar: u64,
}

// The content of an AcceptReply.
#[derive(Clone, Copy, Debug, PartialEq, Eq)]
pub struct Accepted {
    pub member: u64,
    pub slot: u64,
    pub ballot: u64,
}

// The content of a CommitNotice.
#[derive(Clone, Copy, Debug, PartialEq, Eq)]
pub struct Notice {
    pub ballot: u64,
    pub bar: u64,
}

// The content of an Execute.
#[derive(Clone, Copy, Debug, PartialEq, Eq)]
pub struct Order {
    pub slot: u64,
    pub batch: u64,
    pub count: usize,
}

// The content of a read answer.
#[derive(Clone, Copy, Debug, PartialEq, Eq)]
pub struct Answered {
    pub read: u64,
    pub place: u64,
    // Kept: a number, since 01 has it among the numbers of the action (`numbers_of`), and `read_act` promises the action of a row whatever number stands there.
    pub tag: u64,
    pub value: u64,
}

// The thirteen kinds, in the order of their numbers.
#[derive(Clone, Copy, Debug, PartialEq, Eq)]
pub enum Action {
    PrepareBal(Promise),
    AcceptData(Proposal),
    CommitSlot(Mark),
    Prepare(Ask),
    PrepareReply(Promised),
    Accept(Proposal),
    AcceptReply(Accepted),
    CommitNotice(Notice),
    Heartbeat,
    StatusUp,
    StatusDown,
    Execute(Order),
    ReadAnswer(Answered),
}

// What a call that touches one slot says: no action, one, or two, with the keys of the batch beside them.
#[derive(Clone, Copy, Debug, PartialEq, Eq)]
pub enum Says {
    Nothing,
    One(Action),
    Two(Action, Action),
}

// An action that was read back, with its keys.
#[derive(Clone, Copy, Debug, PartialEq, Eq)]
pub struct Got {
    pub what: Action,
    pub keys: [u64; 8],
}

// The action goes into the room at the place of the k-th; nothing changes where there is no such place.
// Kept: here and below the room and the place stand beside each other, since 01 lends the room as numbers and both functions are public with the two;
// the tests of a place and of a short room are promised (`put_act`, `say_acts`, `read_act`).
#[tactic(auto, using(crate::specs::Laws::put_past, crate::specs::Laws::put_short))]
pub fn put_action(room: &mut [u64], k: usize, a: Action, keys: [u64; 8])
    ensures { room.new ≡ put_act room.old k (act a keys) }
{
    if ACTIONS <= k || room.len() < ROOM {
        return;
    }
    let own = keys_for(a, keys);
    let nums = numbers(a, own);
    let at = ROW * k;
    room[at..at + ROW].copy_from_slice(&nums);
}

// What a call on one slot says goes into the room from the place of the k-th on. Hands back the next place.
// Nothing changes where two actions have no place.
pub fn say(room: &mut [u64], k: usize, says: Says, keys: [u64; 8]) -> usize
    ensures { Said room.old k (says_acts says keys) result room.new }
{
    if ACTIONS - 2 < k || room.len() < ROOM {
        return k;
    }
    match says {
        Says::Nothing => k,
        Says::One(a) => {
            put_action(room, k, a, keys);
            k + 1
        }
        Says::Two(a, b) => {
            put_action(room, k, a, keys);
            put_action(room, k + 1, b, keys);
            k + 2
        }
    }
}

// The action at the place of the k-th, or that there is none.
#[tactic(auto, using(crate::specs::ReadLaws::read_past, crate::specs::ReadLaws::read_short))]
pub fn get_action(room: &[u64], k: usize) -> Option<Got>
    ensures { seen result ≡ read_act room.now k }
{
    if ACTIONS <= k || room.len() < ROOM {
        return None;
    }
    read_row(row_at(room, k))
}

// The batch of an action has keys; an action that carries no batch has none.
fn keys_for(a: Action, keys: [u64; 8]) -> [u64; 8]
    ensures { result ≡ keys_for a keys }
{
    match a {
        Action::AcceptData(_) | Action::PrepareReply(_) | Action::Accept(_) | Action::Execute(_) =>
            keys,
        _ => [0; 8],
    }
}

// The 18 numbers of an action: ten of its own, and the eight keys beside it.
fn numbers(a: Action, keys: [u64; 8]) -> [u64; ROW]
    ensures { result ≡ numbers_of a keys }
{
    let mut row = [0; ROW];
    row[..10].copy_from_slice(&own_numbers(a));
    row[10..].copy_from_slice(&keys);
    row
}

// Kind, member, slot, trigger, endprep, ballot, voted ballot, batch id, bar and key count.
fn own_numbers(a: Action) -> [u64; 10]
    ensures { result ≡ take 10 (numbers_of a no_keys) }
{
    match a {
        Action::PrepareBal(p) => [1, 0, p.slot, 0, 0, p.ballot, 0, 0, 0, 0],
        Action::AcceptData(p) => [2, 0, p.slot, 0, 0, p.ballot, 0, p.batch, 0, p.count as u64],
        Action::CommitSlot(p) => [3, 0, p.slot, 0, 0, p.ballot, 0, 0, 0, 0],
        Action::Prepare(p) => [4, EVERYONE, 0, p.trigger, 0, p.ballot, 0, 0, 0, 0],
        Action::PrepareReply(p) => [
            5,
            p.member,
            p.slot,
            p.trigger,
            p.endprep,
            p.ballot,
            p.voted,
            p.batch,
            p.bar,
            p.count as u64,
        ],
        Action::Accept(p) => [
            6,
            EVERYONE,
            p.slot,
            0,
            0,
            p.ballot,
            0,
            p.batch,
            0,
            p.count as u64,
        ],
        Action::AcceptReply(p) => [7, p.member, p.slot, 0, 0, p.ballot, 0, 0, 0, 0],
        Action::CommitNotice(p) => [8, EVERYONE, 0, 0, 0, p.ballot, 0, 0, p.bar, 0],
        Action::Heartbeat => [9, EVERYONE, 0, 0, 0, 0, 0, 0, 0, 0],
        Action::StatusUp => [10, 0, 0, 0, 0, 0, 0, 0, 0, 0],
        Action::StatusDown => [11, 0, 0, 0, 0, 0, 0, 0, 0, 0],
        Action::Execute(p) => [12, 0, p.slot, 0, 0, 0, 0, p.batch, 0, p.count as u64],
        Action::ReadAnswer(p) => [13, 0, p.read, p.place, p.tag, p.value, 0, 0, 0, 0],
    }
}

// The 18 numbers at the place of the k-th.
fn row_at(room: &[u64], k: usize) -> [u64; ROW]
    requires { (k < 192) × (18 * (k + 1) ≤ length room.now) }
    ensures { result ≡ take 18 (drop (18 * k) room.now) }
{
    let at = ROW * k;
    let mut nums = [0; ROW];
    nums.copy_from_slice(&room[at..at + ROW]);
    nums
}

// What 18 numbers say, or that they have no kind of the thirteen.
fn read_row(nums: [u64; ROW]) -> Option<Got>
    ensures { seen result ≡ read_row nums }
{
    let what = row_action(nums)?;
    let keys = keys_for(what, row_keys(nums));
    Some(Got { what, keys })
}

// The eight keys of a row.
fn row_keys(nums: [u64; ROW]) -> [u64; 8]
    ensures { result ≡ row_keys nums }
{
    let mut keys = [0; 8];
    keys.copy_from_slice(&nums[10..]);
    keys
}

// The action of a row, by its kind.
fn row_action(nums: [u64; ROW]) -> Option<Action>
    ensures { result ≡ row_kept nums }
{
    let [
        kind,
        member,
        slot,
        trigger,
        endprep,
        ballot,
        voted,
        batch,
        bar,
        count,
        ..
    ] = nums;
    let count = count as usize;
    let action = match kind {
        1 => Action::PrepareBal(Promise { slot, ballot }),
        2 => Action::AcceptData(Proposal {
            slot,
            ballot,
            batch,
            count,
        }),
        3 => Action::CommitSlot(Mark { slot, ballot }),
        4 => Action::Prepare(Ask { trigger, ballot }),
        5 => Action::PrepareReply(Promised {
            member,
            slot,
            trigger,
            endprep,
            ballot,
            voted,
            batch,
            count,
            bar,
        }),
        6 => Action::Accept(Proposal {
            slot,
            ballot,
            batch,
            count,
        }),
        7 => Action::AcceptReply(Accepted {
            member,
            slot,
            ballot,
        }),
        8 => Action::CommitNotice(Notice { ballot, bar }),
        9 => Action::Heartbeat,
        10 => Action::StatusUp,
        11 => Action::StatusDown,
        12 => Action::Execute(Order { slot, batch, count }),
        13 => Action::ReadAnswer(Answered {
            read: slot,
            place: trigger,
            tag: endprep,
            value: ballot,
        }),
        _ => return None,
    };
    Some(action)
}
