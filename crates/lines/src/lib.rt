// The lines of text that the program `rmcalls` prints (document 01, "Calls outside the list"), put into a lent buffer: `put_line` for a record's
// line, `put_left` for leftover bytes, `put_sum` for all pulses. Every public function takes any buffer, any place in it and any numbers, and answers
// the place after the line, with one equation for this answer and one for the buffer; that the answer is within the room of the line follows. Where
// there is not the room that every line of its kind fits into, the buffer stays as it was and the answer is the place handed in. That place has 32
// bits, so that one comparison of 64 bits tells the room.
#![tactic(auto)]

ghost use Rattle.std.specs.Prelude.{◌≡◌, [], ◌∷◌, ◌++◌, ◌+◌, ◌≤◌, ◌<◌, length, take};
ghost use Rattle.lines.specs.Line.{decimal, after, level_text, numbers_of, line_of, told_kept, left_line, sum_line, pasted, in_room};
ghost use Rattle.lines.specs.Puts.{Puts, Adds, Room, pair};

use order::Refusal;
use records::Answered;

// A room that every line of its kind fits into.
const LINE_ROOM: usize = 128;

const LEFT_ROOM: usize = 26;

const SUM_ROOM: usize = 25;

// Two digits 0, as one number, low byte first.
const ZEROS: u32 = 48 + 256 * 48;

// A text that is being put into a lent buffer, and the place where it ends.
#[derive(Drop)]
struct Text<'a> {
    out: &'a mut [u8],
    at: usize,
}

// A record's line, by the outcome of its answer and what is kept beside it: `Ok` has nothing beside a refusal, and a line shows the group of both. The frame of
// `put_line`, `put_left` and `put_sum` (place, room, text) stands three times: one function with a closure would have to state the three clauses again,
// and another on what the closure adds.
pub fn put_line(
    out: &mut [u8],
    from: u32,
    position: u32,
    kind: u8,
    outcome: Result<(), Refusal>,
    kept: Answered,
) -> usize
    ensures value { result ≡ from + length (in_room 128 from (line_of position kind (told_kept outcome kept)) out.old) }
    ensures out_after { out.new ≡ pasted from (in_room 128 from (line_of position kind (told_kept outcome kept)) out.old) out.old }
    ensures upper_bound { result ≤ from + 128 }
{
    let at = from as usize;
    let number = order::outcome_number(outcome);
    if out.len() < at + LINE_ROOM {
        return at;
    }
    let mut text = Text::new(out, at);
    text.put_numbers(position, kind, number, kept.symbol, kept.pulses);
    text.put_levels(kept.group.n, kept.group.levels);
    text.put(b"\n");
    text.at
}

// The line of the leftover bytes, if there are any.
pub fn put_left(out: &mut [u8], from: u32, left: usize) -> usize
    ensures value { result ≡ from + length (in_room 26 from (left_line left) out.old) }
    ensures out_after { out.new ≡ pasted from (in_room 26 from (left_line left) out.old) out.old }
    ensures upper_bound { result ≤ from + 26 }
{
    let at = from as usize;
    if out.len() < at + LEFT_ROOM || left == 0 {
        return at;
    }
    let mut text = Text::new(out, at);
    text.put_named(b"left ", left as u64);
    text.at
}

// The line of all pulses.
pub fn put_sum(out: &mut [u8], from: u32, pulses: u64) -> usize
    ensures value { result ≡ from + length (in_room 25 from (sum_line pulses) out.old) }
    ensures out_after { out.new ≡ pasted from (in_room 25 from (sum_line pulses) out.old) out.old }
    ensures upper_bound { result ≤ from + 25 }
{
    let at = from as usize;
    if out.len() < at + SUM_ROOM {
        return at;
    }
    let mut text = Text::new(out, at);
    text.put_named(b"sum ", pulses);
    text.at
}

impl<'a> Text<'a> {
    fn new(out: &'a mut [u8], at: usize) -> Text<'a>
        ensures same { result.out.ghost_name ≡ out.entry.ghost_name }
        ensures buffer { result.out.now ≡ out.old }
        ensures place { result.at ≡ at }
    {
        Text { out, at }
    }

    // The numbers of a line, up to the levels.
    fn put_numbers(&mut self, position: u32, kind: u8, number: u8, symbol: u32, pulses: u32)
        requires { Room 54 self.old }
        ensures { Adds 54 self.old self.new (numbers_of position kind number symbol pulses) }
    {
        self.put_number(u64::from(position));
        self.put_field(u32::from(kind));
        self.put_field(u32::from(number));
        self.put_field(symbol);
        self.put_field(pulses);
    }

    // A blank, and a number after it: one digit as a rule.
    fn put_field(&mut self, n: u32)
        requires { Room 11 self.old }
        ensures { Adds 11 self.old self.new (after 32 n) }
    {
        if n < 10 {
            self.put(&[b' ', b'0' + n as u8]);
            return;
        }
        self.put(b" ");
        self.put_number(u64::from(n));
    }

    // A blank, and the levels of cells 1 to n after it, joined by commas.
    fn put_levels(&mut self, n: usize, levels: [u16; 12])
        requires { Room 72 self.old }
        ensures { Adds 72 self.old self.new (32 ∷ level_text (take n levels)) }
    {
        if n == 0 {
            self.put(b" -");
            return;
        }
        let mut mark = b' ';
        for level in &levels[..n.min(12)] {
            self.put(&[mark]);
            self.put_number(u64::from(*level));
            mark = b',';
        }
    }

    // A line of a word and a number. In line, so that the word's length is known and it is stored: else the C archive would need `memmove` from outside.
    #[inline(always)]
    fn put_named(&mut self, word: &[u8], n: u64)
        requires { Room (length word.now + 21) self.old }
        ensures { Adds (length word.now + 21) self.old self.new (word.now ++ decimal n ++ 10 ∷ []) }
    {
        self.put(word);
        self.put_number(n);
        self.put(b"\n");
    }

    // A number in base ten. Most have four digits at most, and are put without recursion. In line, since a text that a call is handed stands in
    // memory at every byte; so `put_long` is handed the buffer and the place.
    #[cycle(number)]
    #[inline(always)]
    fn put_number(&mut self, n: u64)
        requires { Room (length (decimal n)) self.old }
        ensures { Adds (length (decimal n)) self.old self.new (decimal n) }
    {
        if n < 10000 {
            self.put_short(n as u32);
            return;
        }
        self.at = put_long(self.out, self.at, n);
    }

    // A number of four digits at most.
    fn put_short(&mut self, n: u32)
        requires { (n < 10000) × Room (length (decimal n)) self.old }
        ensures { Adds (length (decimal n)) self.old self.new (decimal n) }
    {
        if n < 100 {
            self.put_small(n);
            return;
        }
        self.put_small(n / 100);
        self.put_pair(n % 100);
    }

    // A number of one digit or two.
    fn put_small(&mut self, n: u32)
        requires { (n < 100) × Room (length (decimal n)) self.old }
        ensures { Adds (length (decimal n)) self.old self.new (decimal n) }
    {
        if n < 10 {
            self.put(&[b'0' + n as u8]);
            return;
        }
        self.put_pair(n);
    }

    // Two digits, which are one number, low byte first: the compiler makes one store of them.
    fn put_pair(&mut self, n: u32)
        requires { (n < 100) × Room 2 self.old }
        ensures { Adds 2 self.old self.new (pair n) }
    {
        let both = ZEROS + n / 10 + 256 * (n % 10);
        self.put(&(both as u16).to_le_bytes());
    }

    fn put(&mut self, bytes: &[u8])
        requires { Room (length bytes.now) self.old }
        ensures { Adds (length bytes.now) self.old self.new bytes.now }
    {
        let end = self.at + bytes.len();
        self.out[self.at..end].copy_from_slice(bytes);
        self.at = end;
    }
}

// A number of five digits or more: the last four come after the others.
#[cycle(number)]
fn put_long(out: &mut [u8], at: usize, n: u64) -> usize
    requires { (10000 ≤ n) × (at + length (decimal n) ≤ length out.old) }
    ensures { Puts out.old out.new at result (decimal n) }
{
    let mut text = Text::new(out, at);
    text.put_number(n / 10000);
    let low = (n % 10000) as u32;
    text.put_pair(low / 100);
    text.put_pair(low % 100);
    text.at
}
