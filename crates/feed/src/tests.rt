// What no clause says: what standard error is told where a read or a write fails, and that a call can succeed. The reader, the writer and the
// standard error are made up.
use super::*;
use std::alloc::Global;
use std::cell::RefCell;
use std::fmt::Display;
use std::io;

const UNREAD: &str = "standard input cannot be read\n";

const UNWRITTEN: &str = "standard output cannot be written\n";

// Keeps what it is told.
#[derive(Drop)]
struct Told {
    alloc: Global,
    text: RefCell<String>,
}

impl Told {
    fn nothing(alloc: Global) -> Told {
        Told {
            alloc,
            text: RefCell::new(String::new(alloc)),
        }
    }

    fn more(&self, more: &str) -> io::Result<()> {
        match self.text.try_borrow_mut() {
            Ok(mut text) => {
                text.push_str(more)?;
                Ok(())
            }
            Err(_) => Err(io::Error::other("in use")),
        }
    }

    fn is(&self, wanted: &str) -> bool {
        match self.text.try_borrow() {
            Ok(text) => text.as_str() == wanted,
            Err(_) => false,
        }
    }
}

impl Eprint for Told {
    fn eprint<D: Display + Drop>(&self, value: D) -> io::Result<()> {
        let words = value.to_string(self.alloc)?;
        self.more(words.as_str())
    }

    fn eprintln<D: Display + Drop>(&self, value: D) -> io::Result<()> {
        self.eprint(value)?;
        self.more("\n")
    }
}

// A reader that gives two bytes, fails, gives one byte, and ends.
#[derive(Drop)]
struct Broken {
    reads: u64,
}

impl Read for Broken {
    fn read(&mut self, buf: &mut [u8]) -> io::Result<usize> {
        self.reads = self.reads.wrapping_add(1);
        if buf.len() < 2 {
            return Ok(0);
        }
        match self.reads {
            1 => {
                buf[0] = b'a';
                buf[1] = b'b';
                Ok(2)
            }
            2 => Err(io::Error::from(ErrorKind::TimedOut)),
            3 => {
                buf[0] = b'c';
                Ok(1)
            }
            _ => Ok(0),
        }
    }
}

// A writer that takes two bytes, fails, and takes what comes.
#[derive(Drop)]
struct Stopped {
    kind: ErrorKind,
    writes: u64,
    bytes: Vec<u8>,
}

impl Write for Stopped {
    fn write(&mut self, buf: &[u8]) -> io::Result<usize> {
        self.writes = self.writes.wrapping_add(1);
        match self.writes {
            1 if 2 <= buf.len() => self.bytes.write(&buf[..2]),
            2 => Err(io::Error::from(self.kind)),
            _ => self.bytes.write(buf),
        }
    }

    fn flush(&mut self) -> io::Result<()> {
        Ok(())
    }
}

#[test]
fn reads(rt: HostRuntime) {
    let told = Told::nothing(rt.alloc());
    let mut reader = b"trace".as_slice();
    let mut bytes = [b'.'; 4];
    // Behind one byte there is room for three; then there is none, and the end isn't told from it; then two bytes come, and then the end.
    for (have, now, ended, left) in [
        (1, 4, false, b".tra"),
        (4, 4, true, b".tra"),
        (0, 2, false, b"cera"),
        (2, 2, true, b"cera"),
        (5, 0, true, b"cera"),
    ] {
        assert_eq!(rt;
            read_more(&mut reader, &told, &mut bytes, have),
            Ok(Input { have: now, ended })
        );
        assert_eq!(rt; bytes.as_slice(), left.as_slice());
    }
    assert!(rt; told.is(""));
}

// The bytes that were there stay, and those that come after the failed read are not lost.
#[test]
fn a_read_fails(rt: HostRuntime) {
    let told = Told::nothing(rt.alloc());
    let mut reader = Broken { reads: 0 };
    let mut bytes = [b'.'; 8];
    for (have, now, ended, failed, words) in [
        (1, 3, false, false, ""),
        (3, 3, true, true, UNREAD),
        (3, 4, false, false, UNREAD),
        (4, 4, true, false, UNREAD),
    ] {
        let input = read_more(&mut reader, &told, &mut bytes, have);
        assert_eq!(rt; input.is_err(), failed);
        let (left, end) = match input {
            Ok(input) => (input.have, input.ended),
            Err(failed) => (failed.have, true),
        };
        assert_eq!(rt; left, now);
        assert_eq!(rt; end, ended);
        assert!(rt; told.is(words));
    }
    assert_eq!(rt; bytes.as_slice(), b".abc....".as_slice());
}

#[test]
fn keeps(rt: HostRuntime) {
    let mut bytes = [0u8; 260];
    for i in 0..260 {
        bytes[i] = (i % 251) as u8;
    }
    assert_eq!(rt; keep_rest(&mut bytes, 261), 0);
    assert_eq!(rt; bytes[0], 0);
    assert_eq!(rt; keep_rest(&mut bytes, 259), 3);
    assert_eq!(rt; &bytes[0..5], [5, 6, 7, 3, 4].as_slice());
    assert_eq!(rt; keep_rest(&mut bytes, 256), 0);
}

#[test]
fn writes(rt: HostRuntime) {
    let told = Told::nothing(rt.alloc());
    let mut writer = Vec::new(rt.alloc());
    assert!(rt; write_text(&mut writer, &told, b"text", 3).is_ok());
    assert!(rt; write_text(&mut writer, &told, b"text", 0).is_ok());
    assert!(rt; write_text(&mut writer, &told, b"text", 5).is_err());
    assert!(rt; write_text(&mut writer, &told, b"text", 4).is_ok());
    assert_eq!(rt; writer.as_slice(), b"textext".as_slice());
    assert!(rt; told.is(""));
}

// A write that is stopped by a signal is tried again. Nothing is said where nobody reads what is written.
#[test]
fn a_write_fails(rt: HostRuntime) {
    for (kind, done, words, bytes) in [
        (ErrorKind::StorageFull, false, UNWRITTEN, "te"),
        (ErrorKind::BrokenPipe, false, "", "te"),
        (ErrorKind::Interrupted, true, "", "text"),
    ] {
        let told = Told::nothing(rt.alloc());
        let mut writer = Stopped {
            kind,
            writes: 0,
            bytes: Vec::new(rt.alloc()),
        };
        assert_eq!(rt; write_text(&mut writer, &told, b"text", 4).is_ok(), done);
        assert!(rt; told.is(words));
        assert_eq!(rt; writer.bytes.as_slice(), bytes.as_bytes());
    }
}

// Keeps what it takes, with a stroke behind each block, and takes no block with an x in it.
#[derive(Drop)]
struct Kept {
    blocks: Vec<u8>,
}

impl Taker for Kept {
    fn take_block(&mut self, block: &[u8]) -> Result<(), WriteFailed> {
        if block.contains(&b'x') {
            return Err(WriteFailed);
        }
        let (Ok(_), Ok(_)) = (self.blocks.write(block), self.blocks.write(b"|")) else {
            return Err(WriteFailed);
        };
        Ok(())
    }
}

// Without room for a record all comes at once, or what there is room for; with an x nothing is taken.
#[test]
fn blocks(rt: HostRuntime) {
    let told = Told::nothing(rt.alloc());
    for (text, outcome, taken) in [
        ("", Ok(()), ""),
        ("abc", Ok(()), "|abc|"),
        ("abcdef", Ok(()), "|abcd|"),
        ("axc", Err(Stop::Unwritten), "|"),
    ] {
        let mut reader = text.as_bytes();
        let mut kept = Kept {
            blocks: Vec::new(rt.alloc()),
        };
        let mut bytes = [0u8; 4];
        assert_eq!(rt;
            each_block(&mut reader, &told, &mut bytes, &mut kept),
            outcome
        );
        assert_eq!(rt; kept.blocks.as_slice(), taken.as_bytes());
    }
    assert!(rt; told.is(""));
}

// Two records and two bytes, the first read of 300 bytes.
#[test]
fn records(rt: HostRuntime) {
    let told = Told::nothing(rt.alloc());
    let text = [b'r'; 514];
    let mut reader = text.as_slice();
    let mut kept = Kept {
        blocks: Vec::new(rt.alloc()),
    };
    let mut bytes = [0u8; 300];
    assert_eq!(rt;
        each_block(&mut reader, &told, &mut bytes, &mut kept),
        Ok(())
    );
    let blocks = kept.blocks.as_slice();
    assert_eq!(rt; blocks.len(), 517);
    assert_eq!(rt; blocks.get(256), Some(&b'|'));
    assert_eq!(rt; blocks.get(513), Some(&b'|'));
    assert_eq!(rt; blocks.get(516), Some(&b'|'));
}

// A read that fails ends it, and what was not a whole record by then is not taken.
#[test]
fn a_block_fails(rt: HostRuntime) {
    let told = Told::nothing(rt.alloc());
    let mut reader = Broken { reads: 0 };
    let mut kept = Kept {
        blocks: Vec::new(rt.alloc()),
    };
    let mut bytes = [0u8; 300];
    assert_eq!(rt;
        each_block(&mut reader, &told, &mut bytes, &mut kept),
        Err(Stop::Unread)
    );
    assert_eq!(rt; kept.blocks.as_slice(), b"|".as_slice());
    assert!(rt; told.is(UNREAD));
}
