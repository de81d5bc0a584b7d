// `A` and 18 numbers for each action.
use crate::page::Page;
use actions::ROW;

pub(crate) fn actions(page: &mut Page<'_>, room: &[u64], count: usize) {
    for row in room.chunks_exact(ROW).take(count) {
        page.line(b'A', row);
    }
}
