// `I` and 36 numbers for each slot, 37 for a strict replica's.
use crate::page::Page;
use batch::Batch;
use slots::{LeaderBook, ReplicaBook, Slot};
use window::Window;

// Batch id, key count, eight keys.
fn batch_row(b: &Batch) -> [u64; 10] {
    let mut row = [0; 10];
    row[..2].copy_from_slice(&[b.id, b.count as u64]);
    row[2..].copy_from_slice(&b.keys);
    row
}

// A leader's bookkeeping: all 0 where it is absent.
fn leader_row(b: &LeaderBook) -> [u64; 6] {
    if b.present {
        [
            1,
            b.trigger,
            b.endprep,
            b.prepare_acks,
            b.prepare_max_bal,
            b.accept_acks,
        ]
    } else {
        [0; 6]
    }
}

fn replica_row(b: &ReplicaBook) -> [u64; 4] {
    if b.present {
        [1, b.source, b.trigger, b.endprep]
    } else {
        [0; 4]
    }
}

// The last number, of the strict kind alone, is the members noted.
fn line(page: &mut Page<'_>, strict: bool, slot: u64, s: &Slot) {
    let head = [
        slot,
        s.ballot,
        s.status,
        u64::from(s.external),
        s.wal_offset,
    ];
    let (batch, voted) = (batch_row(&s.batch), batch_row(&s.vote.batch));
    let (leader, replica) = (leader_row(&s.leader), replica_row(&s.replica));
    let (vote, notes) = ([s.vote.ballot], [s.leader.notes]);
    let parts = head
        .iter()
        .chain(&batch)
        .chain(&vote)
        .chain(&voted)
        .chain(&leader)
        .chain(&replica)
        .chain(&notes);
    let mut row = [0; 37];
    for (place, n) in row.iter_mut().zip(parts) {
        *place = *n;
    }
    let told = if strict { 37 } else { 36 };
    page.line(b'I', &row[..told]);
}

pub(crate) fn slots(page: &mut Page<'_>, strict: bool, start: u64, w: &Window) {
    for (i, s) in w.slots.iter().take(w.len).enumerate() {
        line(page, strict, start.wrapping_add(i as u64), s);
    }
}
