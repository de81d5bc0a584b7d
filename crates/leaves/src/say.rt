// Values as numbers, each with a blank before it.
use batch::Batch;
use std::fmt;
use tally::Tally;

#[derive(Clone, Copy)]
pub(crate) struct Numbers<'a>(pub(crate) &'a [u64]);

// A batch: id, count and eight keys. A tally: the count, and the first three keys' best answers.
#[derive(Clone, Copy)]
pub(crate) struct Shown<T>(pub(crate) T);

impl fmt::Display for Numbers<'_> {
    fn fmt<W: fmt::Write>(&self, f: &mut fmt::Formatter<W>) -> fmt::Result {
        for n in self.0 {
            write!(f, " {n}")?;
        }
        Ok(())
    }
}

impl fmt::Display for Shown<Batch> {
    fn fmt<W: fmt::Write>(&self, f: &mut fmt::Formatter<W>) -> fmt::Result {
        let b = self.0;
        write!(f, " {} {}{}", b.id, b.count, Numbers(&b.keys))
    }
}

impl fmt::Display for Shown<Tally> {
    fn fmt<W: fmt::Write>(&self, f: &mut fmt::Formatter<W>) -> fmt::Result {
        let t = self.0;
        write!(f, " {}", t.count)?;
        for key in &t.bests[..3] {
            write!(f, " {}", key.best)?;
        }
        Ok(())
    }
}
