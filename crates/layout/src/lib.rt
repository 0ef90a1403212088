// The layout (document 01, "Layout"): one-byte commands with little-endian operands. The bytes are
// checked once, and the places where their sections begin go into a lent table of 514 words, so
// that a lookup reads its own section alone: words 0 to 255 for struct types, 256 to 511 for
// functions, 512 and 513 how many there are of each.
#![tactic(auto)]

ghost use Rattle.std.specs.Prelude.{◌≡◌, true, ◌+◌, ◌<◌, ◌≤◌, ◌++◌, length, MatchOption};
ghost use Rattle.std.proofs.lemmas.List.Edits.{sets};
ghost use Rattle.layout.specs.Sections.{is_layout, starts, begin_of, base_of, count_of, section_of, lister_of, Continues, Tabled, LayoutRead};
ghost use Rattle.layout.specs.Check.{u16_bytes, Reads, takes};

const TABLE: usize = 514;

// As many struct types, and as many functions, at most.
const MOST: usize = 256;

// The bytes are no layout, or the table has fewer than 514 words.
#[derive(Clone, Copy, Debug, PartialEq, Eq)]
pub struct BadLayout;

// What a section describes.
#[derive(Clone, Copy, Debug, PartialEq, Eq)]
pub enum Section {
    Struct,
    Function,
}

// What a section lists: a struct type's fields; a function's registers, its captures.
#[derive(Clone, Copy, Debug, PartialEq, Eq)]
pub enum Entry {
    Field,
    Register,
    Capture,
}

// A number that a section lists, and where to go on.
#[derive(Clone, Copy, Debug, PartialEq, Eq)]
pub struct Listed {
    pub number: u64,
    pub next: usize,
}

// One of three things, not a value or none.
#[derive(Clone, Copy, Debug, PartialEq, Eq)]
enum Command {
    End,
    Begins(Section),
    Lists(Entry, u16),
}

impl Section {
    // The table's word from which on the starts of such sections stand. Here and below a constant for
    // each kind, in rows: as constants of a trait they would stand in two impls.
    fn base(self) -> usize
        ensures { result ≡ base_of self }
    {
        match self {
            Section::Struct => 0,
            Section::Function => 256,
        }
    }

    // The table's word that says how many there are.
    fn count(self) -> usize
        ensures { result ≡ count_of self }
    {
        match self {
            Section::Struct => 512,
            Section::Function => 513,
        }
    }
}

impl Entry {
    // The kind of section that lists it.
    fn section(self) -> Section
        ensures { result ≡ section_of self }
    {
        match self {
            Entry::Field => Section::Struct,
            Entry::Register | Entry::Capture => Section::Function,
        }
    }

    // Whether the number may be one: a capture's is its type, 0 to 2.
    fn takes(self, number: u16) -> bool
        ensures { result ≡ takes self number }
    {
        match self {
            Entry::Field | Entry::Register => true,
            Entry::Capture => number <= 2,
        }
    }
}

// Two bytes as a number, and the bytes after them.
fn read_u16(bytes: &[u8]) -> Option<(u16, &[u8])>
    ensures { MatchOption result (length bytes.now < 2) (λ read. bytes.now ≡ u16_bytes read.0 ++ read.1.now) }
{
    match bytes {
        [low, high, rest @ ..] => Some((u16::from_le_bytes([*low, *high]), rest)),
        _ => None,
    }
}

// The first command with its operand, if it is whole, and the bytes after it.
#[tactic(auto, unfolding(crate::specs::Sections::operand_bytes))]
fn read_command(bytes: &[u8]) -> Option<(Command, &[u8])>
    ensures { Reads bytes.now result }
{
    let [byte, rest @ ..] = bytes else {
        return None;
    };
    // What a byte means stands here once, as rows.
    match byte {
        0 => Some((Command::End, rest)),
        1 => Some((Command::Begins(Section::Struct), rest)),
        2 => {
            let (number, rest) = read_u16(rest)?;
            Some((Command::Lists(Entry::Field, number), rest))
        }
        3 => Some((Command::Begins(Section::Function), rest)),
        4 => {
            let (number, rest) = read_u16(rest)?;
            Some((Command::Lists(Entry::Register, number), rest))
        }
        5 => {
            let [ty, rest @ ..] = rest else {
                return None;
            };
            Some((Command::Lists(Entry::Capture, u16::from(*ty)), rest))
        }
        _ => None,
    }
}

fn is_layout(bytes: &[u8]) -> bool
    ensures { result ≡ is_layout bytes.now }
{
    let mut rest = bytes;
    let mut under = None;
    let mut structs = 0;
    let mut functions = 0;
    while let Some((command, after)) = read_command(rest) {
        match command {
            Command::End => return after.is_empty(),
            Command::Begins(Section::Struct) if structs < MOST => {
                under = Some(Section::Struct);
                structs += 1;
            }
            Command::Begins(Section::Function) if functions < MOST => {
                under = Some(Section::Function);
                functions += 1;
            }
            Command::Lists(entry, number)
                if under == Some(entry.section()) && entry.takes(number) => {}
            _ => return false,
        }
        rest = after;
    }
    false
}

// Writes the starts of the sections of a kind into the table, and gives their number.
fn write_starts(bytes: &[u8], table: &mut [u64], kind: Section) -> usize
    requires layout { is_layout bytes.now ≡ true }
    requires room { base_of kind + length (starts (begin_of kind) bytes.now) ≤ length table.old }
    ensures value { result ≡ length (starts (begin_of kind) bytes.now) }
    ensures table_after { table.new ≡ sets table.old (base_of kind) (starts (begin_of kind) bytes.now) }
{
    let base = kind.base();
    let mut count = 0;
    let mut rest = bytes;
    while let Some((command, after)) = read_command(rest) {
        rest = after;
        if command == Command::Begins(kind) {
            table[base + count] = (bytes.len() - rest.len()) as u64;
            count += 1;
        }
    }
    count
}

// Reads the layout into the table; what is refused writes nothing.
pub fn read_layout(bytes: &[u8], table: &mut [u64]) -> Result<(), BadLayout>
    ensures { LayoutRead bytes.now table.old table.new result }
{
    if table.len() < TABLE || !is_layout(bytes) {
        return Err(BadLayout);
    }
    let structs = write_starts(bytes, table, Section::Struct);
    let functions = write_starts(bytes, table, Section::Function);
    table[Section::Struct.count()] = structs as u64;
    table[Section::Function.count()] = functions as u64;
    Ok(())
}

// The next number that commands of such an entry list, from a place in their section on.
pub fn next_listed(bytes: &[u8], entry: Entry, at: usize) -> Option<Listed>
    ensures { Continues (lister_of entry) bytes.now at result }
{
    let mut rest = bytes.get(at..)?;
    while let Some((command, after)) = read_command(rest) {
        let Command::Lists(listed, number) = command else {
            return None;
        };
        if listed == entry {
            return Some(Listed {
                number: u64::from(number),
                next: bytes.len() - after.len(),
            });
        }
        if listed.section() != entry.section() {
            return None;
        }
        rest = after;
    }
    None
}

// The bytes of a layout that was read, and its table.
#[derive(Clone, Copy)]
pub struct ReadLayout<'a> {
    pub bytes: &'a [u8],
    pub table: &'a [u64],
    pub ghost tabled: { Tabled bytes.now table.now },
}

impl ReadLayout<'_> {
    ghost use Rattle.layout.specs.Sections.{SectionAt};

    // Where the section of a type or function begins; an unknown one's is the end of the bytes.
    pub fn section(&self, kind: Section, number: u64) -> usize
        ensures { SectionAt kind self.now.bytes.now number result }
    {
        if number < self.table[kind.count()] {
            self.table[kind.base() + number as usize] as usize
        } else {
            self.bytes.len()
        }
    }

    // The next number that a section lists as such an entry, from a place in the section on.
    pub fn next(&self, entry: Entry, at: usize) -> Option<Listed>
        ensures { Continues (lister_of entry) self.now.bytes.now at result }
    {
        next_listed(self.bytes, entry, at)
    }
}
