// Batches of keys, and the table of the highest slot that puts each key (quorumread.rs, refresh_highest_slot).
#![tactic(auto)]

ghost use Rattle.std.specs.Prelude.{◌≡◌, ◌≤◌};
ghost use Rattle.batch.specs.Batches.{empty_batch, is_empty, first_keys, is_batch, make_batch, made, same_batch};
ghost use Rattle.batch.specs.Laws.{same_batch_laws};
ghost use Rattle.batch.specs.Keys.{empty_table, place_of, knows, note_key, refresh, is_new, new_keys, overfull, too_many, note_if};

// How many keys a batch holds at most.
pub const KEYS: usize = 8;

// How many keys a table holds at most.
pub const TABLE: usize = 256;

// A batch: its id and the keys that it puts. Keys past the count are 0.
// Kept: an array and a count, here and below. No heap, fixed memory.
#[derive(Clone, Copy, Debug)]
pub struct Batch {
    pub id: u64,
    pub count: usize,
    pub keys: [u64; KEYS],
}

// The highest slot seen for each key: the first `count` places are in use.
// Kept: two arrays beside a count. Pairs in one array were tried, and they miss a bar of speed that this form meets: the search of a full table for a key that
// it lacks, in no more than today's time. It took 126 ns here and 287 ns over pairs, and 309 and 661 ns in tables that aren't in the cache (rustc -O; 152 and
// 272, 359 and 674 for x86-64-v2), since over pairs twice the memory is read. No `==` is derived: two tables that know the same differ where places past the
// count do.
#[derive(Clone, Copy, Debug)]
pub struct KeyTable {
    pub count: usize,
    pub keys: [u64; TABLE],
    pub slots: [u64; TABLE],
}

// The batch with no id and no keys.
pub fn empty_batch() -> Batch
    ensures { result ≡ empty_batch }
{
    Batch {
        id: 0,
        count: 0,
        keys: [0; KEYS],
    }
}

// Eight keys, those past the count 0.
// Kept: here and below `min` of a count and the room, and the tests of a count past it, since the fields are public and the promises speak of every count
// (`first_keys` and `same_batch` by `clip`, `place_in`, `note_key`, `overfull`).
pub fn first_keys(count: usize, keys: [u64; KEYS]) -> [u64; KEYS]
    ensures { result ≡ first_keys count keys }
{
    let n = count.min(KEYS);
    let mut kept = [0; KEYS];
    kept[..n].copy_from_slice(&keys[..n]);
    kept
}

// Whether there is a batch of the id with as many keys.
fn is_batch(id: u64, count: usize) -> bool
    ensures { result ≡ is_batch id count }
{
    count <= KEYS && (id != 0 || count == 0)
}

// A batch from numbers: none where there are more than 8 keys, or keys at id 0. None is the answer 10.
pub fn make(id: u64, count: usize, keys: [u64; KEYS]) -> Option<Batch>
    ensures { made result ≡ make_batch id count keys }
{
    if !is_batch(id, count) {
        return None;
    }
    Some(Batch {
        id,
        count,
        keys: first_keys(count, keys),
    })
}

// Two batches are one if id and list are equal: keys past the count don't count.
impl PartialEq for Batch {
    ghost eq = { same_batch };

    ghost laws = { same_batch_laws };

    fn eq(&self, other: &Batch) -> bool {
        let n = self.count.min(KEYS);
        let m = other.count.min(KEYS);
        self.id == other.id && self.keys[..n] == other.keys[..m]
    }
}

impl Batch {
    // Empty means id 0.
    pub fn is_empty(self) -> bool
        ensures { result ≡ is_empty self }
    {
        self.id == 0
    }
}

// A table that knows no key.
pub fn empty_table() -> KeyTable
    ensures { result ≡ empty_table }
{
    KeyTable {
        count: 0,
        keys: [0; TABLE],
        slots: [0; TABLE],
    }
}

impl KeyTable {
    // The first place in use that holds the key, or how many are in use.
    // Kept: a number and no Option, since that is what `place_in` promises any caller: the count where no place holds the key.
    pub fn find(&self, key: u64) -> usize
        ensures { result ≡ place_of self.now key }
    {
        let end = self.count.min(TABLE);
        self.keys[..end]
            .iter()
            .position(|k| *k == key)
            .unwrap_or(end)
    }

    // A key that a slot puts: a known key keeps the larger slot, a new one takes the next place, a full table stays.
    pub fn note(&mut self, key: u64, slot: u64)
        ensures { self.new ≡ note_key slot self.old key }
    {
        let at = self.find(key);
        if at < self.count.min(TABLE) {
            self.slots[at] = self.slots[at].max(slot);
        } else if self.count < TABLE {
            self.keys[self.count] = key;
            self.slots[self.count] = slot;
            self.count += 1;
        }
    }

    // Each key of a batch, noted so.
    pub fn note_batch(&mut self, slot: u64, batch: Batch)
        ensures { self.new ≡ refresh slot batch self.old }
    {
        for key in &batch.keys[..batch.count.min(KEYS)] {
            self.note(*key, slot);
        }
    }

    // Whether key i of a list is neither in the table nor earlier in the list.
    fn is_new(&self, keys: &[u64; KEYS], i: usize) -> bool
        requires { i ≤ 7 }
        ensures { result ≡ is_new self.now.keys self.now.count keys.now i }
    {
        let key = keys[i];
        let known = self.find(key) < self.count.min(TABLE);
        !known && !keys[..i].contains(&key)
    }

    // How many different keys among the first n of a list the table lacks.
    fn new_keys(&self, keys: &[u64; KEYS], n: usize) -> usize
        requires { n ≤ 8 }
        ensures { result ≡ new_keys self.now.keys self.now.count keys.now n }
    {
        // Kept: `(0..n).filter(|i| self.is_new(keys, *i)).count()` was tried, and the proof did not close: that its count is `new_keys` was not found.
        let mut fresh: usize = 0;
        for i in 0..n {
            fresh += usize::from(self.is_new(keys, i));
        }
        fresh
    }

    // refresh_highest_slot: each key that the batch puts keeps the larger slot.
    pub fn refresh(mut self, slot: u64, batch: Batch) -> KeyTable
        ensures { result ≡ refresh slot batch self }
    {
        self.note_batch(slot, batch);
        self
    }

    // 7: the batch would add more new keys than the table has free. New keys are counted only where the list might not fit.
    pub fn overfull(&self, batch: Batch) -> bool
        ensures { result ≡ overfull self.now batch }
    {
        if TABLE < self.count {
            return true;
        }
        let n = batch.count.min(KEYS);
        if self.count + n <= TABLE {
            return false;
        }
        TABLE < self.count + self.new_keys(&batch.keys, n)
    }

    // 7 of a batch that is noted.
    pub fn too_many(&self, noted: bool, batch: Batch) -> bool
        ensures { result ≡ too_many noted self.now batch }
    {
        noted && self.overfull(batch)
    }

    // The table with a batch that is noted.
    pub fn note_if(self, noted: bool, slot: u64, batch: Batch) -> KeyTable
        ensures { result ≡ note_if noted slot batch self }
    {
        if noted {
            self.refresh(slot, batch)
        } else {
            self
        }
    }
}
