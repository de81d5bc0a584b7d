// `S` and 18 numbers, 19 for a strict replica; `F` and the summary's two; `P` member bar, for each entry of the peer accept table.
use crate::page::Page;
use decide::PeerBars;
use replica::Replica;
use window::Summary;

// The numbers, with those of slots, keys and reads; the last, of the strict kind alone, is the leader's trigger.
pub(crate) fn numbers(page: &mut Page<'_>, r: &Replica) {
    let sc = r.sc;
    let row = [
        sc.id,
        sc.group,
        sc.quorum(),
        sc.start,
        u64::from(sc.urgent()),
        u64::from(sc.disallowed()),
        sc.leader,
        sc.bal_prep_sent,
        sc.bal_prepared,
        sc.bal_max_seen,
        sc.accept_bar,
        sc.commit_bar,
        sc.exec_bar,
        sc.wal_offset,
        sc.peer_accept_max,
        r.window.len as u64,
        r.keys.count as u64,
        r.reads.count as u64,
        sc.lead_trigger,
    ];
    let told = if sc.strict() { 19 } else { 18 };
    page.line(b'S', &row[..told]);
}

// The summary, asked as a host asks it.
pub(crate) fn summary(page: &mut Page<'_>, known: Summary) {
    page.line(b'F', &[known.first_open(), known.count_accepting()]);
}

// The entry of each member of the group; self's only once it has one.
pub(crate) fn bars(page: &mut Page<'_>, id: u64, group: u64, table: &PeerBars) {
    for (member, bar) in (0..group).zip(table.bars) {
        if member != id || table.own {
            page.line(b'P', &[member, bar]);
        }
    }
}
