// A number's decimal text, and single bytes, put into lent bytes.
ghost use Rattle.std.specs.Prelude.{◌≡◌, ◌+◌, ◌%◌, ◌≤◌, [], ◌∷◌, length};
ghost use Rattle.words.specs.Put.{put_at, Written};
ghost use Rattle.words.specs.Decimal.{decimal, digits, Wide};

// Puts a number's digits at a place and gives the next; where they do not fit, nothing changes and the place stays.
// Kept: here and below the text and the place stand beside each other, since the room is lent (fixed memory) and `Written` speaks of any two, a place past the
// end too.
#[tactic(auto, using(crate::specs::DecimalLaws::number_left, crate::specs::DecimalLaws::number_written))]
pub fn put_number(text: &mut [u8], at: usize, n: u64) -> usize
    ensures { Written text.old at (decimal n) result text.new }
{
    let width = width_of(n);
    if text.len() < width || text.len() - width < at {
        return at;
    }
    spell(text, at, n, width);
    at + width
}

// Puts one byte at a place and gives the next; where it does not fit, nothing changes and the place stays.
pub fn put_byte(text: &mut [u8], at: usize, byte: u8) -> usize
    ensures { Written text.old at (byte ∷ []) result text.new }
{
    if at < text.len() {
        text[at] = byte;
        return at + 1;
    }
    at
}

// Two digits a turn, from the last on.
// Kept: a `for` is no plainer here, since the places go down by two, and the digit that may be left over stands after them.
fn spell(text: &mut [u8], at: usize, n: u64, width: usize)
    requires { at + width ≤ length text.old }
    ensures { text.new ≡ put_at text.old at (digits width n) }
{
    let mut left = width;
    let mut rest = n;
    while 1 < left {
        let pair = rest % 100;
        let end = at + left;
        text[end - 1] = digit(pair);
        text[end - 2] = digit(pair / 10);
        rest /= 100;
        left -= 2;
    }
    if left == 1 {
        text[at] = digit(rest);
    }
}

fn digit(n: u64) -> u8
    ensures { result ≡ 48 + n % 10 }
{
    b'0' + (n % 10) as u8
}

// How many digits a number has.
fn width_of(n: u64) -> usize
    ensures { Wide n result }
{
    match n.checked_ilog10() {
        Some(log) => log as usize + 1,
        None => 1,
    }
}
