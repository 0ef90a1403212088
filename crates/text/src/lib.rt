// Lines of text written into a lent buffer, and little-endian numbers read from one.
#![tactic(auto)]

ghost use Rattle.std.specs.Prelude.{◌≡◌, [], ◌∷◌, ◌+◌, ◌≤◌, ◌<◌, length};
ghost use Rattle.model.specs.Callsheet.{digit, digits, decimal, printed};
ghost use Rattle.text.specs.Puts.{ReadsLittle};
ghost use Rattle.text.specs.Writes.{Writes};
ghost use Rattle.text.specs.Lines.{line_fields, line_head};

// Text put into a lent buffer: it ends at `end`, where the next goes.
#[derive(Drop)]
pub struct Writer<'a> {
    pub out: &'a mut [u8],
    pub end: usize,
}

#[tactic(auto, using(std::proofs::lemmas::Bool::Decides::nat_tests), unfolding(model::specs::Callsheet::digit))]
fn digit_byte(d: u64) -> u8
    requires { d < 16 }
    ensures { result ≡ digit d }
{
    match d {
        0..=9 => b'0' + d as u8,
        _ => b'A' + (d - 10) as u8,
    }
}

// How many digits w has in decimal.
fn decimal_width(w: u64) -> usize
    ensures { decimal w ≡ digits 10 result w }
{
    w.max(1).ilog10() as usize + 1
}

impl Writer<'_> {
    pub fn put_byte(&mut self, b: u8)
        requires { self.old.end + 1 ≤ length self.old.out.now }
        ensures { Writes (b ∷ []) self.old self.new }
    {
        self.out[self.end] = b;
        self.end += 1;
    }

    // The last n digits of w in a base, written from the lowest up.
    fn put_digits(&mut self, base: u64, n: usize, w: u64)
        requires { (1 ≤ base) × (base ≤ 16) × (self.old.end + n ≤ length self.old.out.now) }
        ensures { Writes (digits base n w) self.old self.new }
    {
        let mut rest = w;
        for left in (0..n).rev() {
            self.out[self.end + left] = digit_byte(rest % base);
            rest /= base;
        }
        self.end += n;
    }

    pub fn put_hex(&mut self, w: u64, n: usize)
        requires { self.old.end + n ≤ length self.old.out.now }
        ensures { Writes (digits 16 n w) self.old self.new }
    {
        self.put_digits(16, n, w);
    }

    pub fn put_decimal(&mut self, w: u64)
        requires { self.old.end + 20 ≤ length self.old.out.now }
        ensures { Writes (decimal w) self.old self.new }
    {
        self.put_digits(10, decimal_width(w), w);
    }

    // A field of a line: a space and the number.
    pub fn put_spaced_hex(&mut self, w: u64, n: usize)
        requires { self.old.end + 1 + n ≤ length self.old.out.now }
        ensures { Writes (32 ∷ digits 16 n w) self.old self.new }
    {
        self.put_byte(b' ');
        self.put_hex(w, n);
    }

    pub fn put_spaced_decimal(&mut self, w: u64)
        requires { self.old.end + 21 ≤ length self.old.out.now }
        ensures { Writes (32 ∷ decimal w) self.old self.new }
    {
        self.put_byte(b' ');
        self.put_decimal(w);
    }

    // The fields behind the command.
    fn put_fields(&mut self, refusal: u64, word: u64, used: u64)
        requires { self.old.end + 59 ≤ length self.old.out.now }
        ensures { Writes (line_fields refusal word used) self.old self.new }
    {
        self.put_spaced_decimal(refusal);
        self.put_spaced_hex(word, 16);
        self.put_spaced_decimal(used);
    }

    // A line without its line feed, for lines with more fields.
    pub fn put_head(&mut self, code: u64, refusal: u64, word: u64, used: u64)
        requires { self.old.end + 61 ≤ length self.old.out.now }
        ensures { Writes (line_head (digits 16 2 code) refusal word used) self.old self.new }
    {
        self.put_hex(code, 2);
        self.put_fields(refusal, word, used);
    }

    pub fn put_line(&mut self, code: u64, refusal: u64, word: u64, used: u64)
        requires { self.old.end + 62 ≤ length self.old.out.now }
        ensures { Writes (printed (digits 16 2 code) refusal word used) self.old self.new }
    {
        self.put_head(code, refusal, word, used);
        self.put_byte(b'\n');
    }

    // The line for an unknown command or a missing operand.
    pub fn put_unknown(&mut self, used: u64)
        requires { self.old.end + 62 ≤ length self.old.out.now }
        ensures { Writes (printed (63 ∷ 63 ∷ []) 4 0 used) self.old self.new }
    {
        self.put_byte(b'?');
        self.put_byte(b'?');
        self.put_fields(4, 0, used);
        self.put_byte(b'\n');
    }
}

// The number of the n bytes from `at` on, the lowest byte first.
pub fn read_little(bytes: &[u8], at: usize, n: usize) -> u64
    requires { (n ≤ 8) × (at + n ≤ length bytes.now) }
    ensures { ReadsLittle bytes.now at n result }
{
    let mut eight = [0; 8];
    eight[..n].copy_from_slice(&bytes[at..at + n]);
    u64::from_le_bytes(eight)
}
