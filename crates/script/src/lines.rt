// The line of a command.
ghost use Rattle.std.specs.Prelude.{◌≡◌, ◌+◌, ◌*◌, ◌≤◌, length, take};
ghost use Rattle.text.specs.Writes.{Writes};
ghost use Rattle.script.specs.Lines.{accepted_forms, adjusted, buffer_text, extra_text, field_text, forms_of, hex_text, lent_text, line_text, list_text, refused_forms, with_last};

use answers::Shown;
use commands::{Form, Memory, Operands};
use text::Writer;

// How a number that is answered beside the word is shown.
#[derive(Clone, Copy, Debug, PartialEq, Eq)]
pub enum FieldForm {
    Absent,
    Decimal,
    Hexadecimal,
}

// How the numbers beside an answered word are shown.
#[derive(Clone, Copy, Debug, PartialEq, Eq)]
pub struct Forms {
    pub x: FieldForm,
    pub y: FieldForm,
    pub z: FieldForm,
    pub u: FieldForm,
    pub v: FieldForm,
}

const ALL_ABSENT: Forms = Forms {
    x: FieldForm::Absent,
    y: FieldForm::Absent,
    z: FieldForm::Absent,
    u: FieldForm::Absent,
    v: FieldForm::Absent,
};

const ALL_DECIMAL: Forms = Forms {
    x: FieldForm::Decimal,
    y: FieldForm::Decimal,
    z: FieldForm::Decimal,
    u: FieldForm::Decimal,
    v: FieldForm::Decimal,
};

#[tactic(auto, using(std::proofs::lemmas::Bool::Decides::nat_tests), unfolding(crate::specs::Lines::accepted_forms))]
fn accepted_forms(form: Form, x: u64) -> Forms
    ensures { result ≡ accepted_forms form x }
{
    match form {
        Form::WordAlone => ALL_ABSENT,
        Form::EntryFields => Forms {
            x: FieldForm::Hexadecimal,
            y: FieldForm::Hexadecimal,
            v: FieldForm::Absent,
            ..ALL_DECIMAL
        },
        Form::FrameFields => Forms {
            x: FieldForm::Decimal,
            y: FieldForm::Decimal,
            z: FieldForm::Hexadecimal,
            ..ALL_ABSENT
        },
        Form::IteratorCursor if x == 7 => Forms {
            v: FieldForm::Absent,
            ..ALL_DECIMAL
        },
        Form::Second | Form::IteratorCursor => Forms {
            x: FieldForm::Decimal,
            ..ALL_ABSENT
        },
        Form::LentCursor => ALL_DECIMAL,
    }
}

#[tactic(auto, using(std::proofs::lemmas::Bool::Decides::nat_tests), unfolding(crate::specs::Lines::forms_of, crate::specs::Lines::refused_forms))]
fn forms_of(form: Form, refusal: u64, x: u64) -> Forms
    ensures { result ≡ forms_of form refusal x }
{
    if refusal == 0 {
        return accepted_forms(form, x);
    }
    match form {
        Form::LentCursor => ALL_DECIMAL,
        _ => ALL_ABSENT,
    }
}

fn put_field(writer: &mut Writer<'_>, form: FieldForm, w: u64)
    requires { writer.old.end + 21 ≤ length writer.old.out.now }
    ensures { Writes (field_text form w) writer.old writer.new }
{
    match form {
        FieldForm::Absent => {},
        FieldForm::Decimal => writer.put_spaced_decimal(w),
        FieldForm::Hexadecimal => writer.put_spaced_hex(w, 16),
    }
}

fn put_extra(writer: &mut Writer<'_>, f: Forms, s: Shown)
    requires { writer.old.end + 105 ≤ length writer.old.out.now }
    ensures { Writes (extra_text f s) writer.old writer.new }
{
    put_field(writer, f.x, s.x);
    put_field(writer, f.y, s.y);
    put_field(writer, f.z, s.z);
    put_field(writer, f.u, s.u);
    put_field(writer, f.v, s.v);
}

fn put_list(writer: &mut Writer<'_>, places: &[u64])
    requires { writer.old.end + 17 * length places.now ≤ length writer.old.out.now }
    ensures { Writes (list_text places.now) writer.old writer.new }
{
    for place in places {
        writer.put_spaced_hex(*place, 16);
    }
}

fn put_bytes(writer: &mut Writer<'_>, bytes: &[u8])
    requires { writer.old.end + 2 * length bytes.now ≤ length writer.old.out.now }
    ensures { Writes (hex_text bytes.now) writer.old writer.new }
{
    for byte in bytes {
        writer.put_hex(*byte as u64, 2);
    }
}

fn put_buffer(writer: &mut Writer<'_>, bytes: &[u8])
    requires { writer.old.end + 2 + 2 * length bytes.now ≤ length writer.old.out.now }
    ensures { Writes (buffer_text bytes.now) writer.old writer.new }
{
    writer.put_byte(b' ');
    if bytes.is_empty() {
        writer.put_byte(b'-');
    } else {
        put_bytes(writer, bytes);
    }
}

// What is listed of the places: no more than there are.
fn listed(x: u64, places: &[u64]) -> usize
    ensures places_value { take result places.now ≡ take x places.now }
    ensures upper_bound { result ≤ length places.now }
{
    (x as usize).min(places.len())
}

// The memory lent: the buffer, the list, or what is listed for the roots.
fn put_lent(writer: &mut Writer<'_>, memory: Memory, s: Shown, places: &[u64], bytes: &[u8])
    requires places_in_bounds { writer.old.end + 17 * length places.now ≤ length writer.old.out.now }
    requires bytes_in_bounds { writer.old.end + 2 + 2 * length bytes.now ≤ length writer.old.out.now }
    ensures { Writes (lent_text memory s places.now bytes.now) writer.old writer.new }
{
    match memory {
        Memory::Own => {},
        Memory::Buffer => put_buffer(writer, bytes),
        Memory::Places => put_list(writer, places),
        Memory::Roots => put_list(writer, &places[..listed(s.x, places)]),
    }
}

#[tactic(auto, using(std::proofs::lemmas::Bool::Decides::nat_tests), unfolding(crate::specs::Lines::with_last))]
fn with_last(last: u64, s: Shown) -> Shown
    ensures { result ≡ with_last last s }
{
    if s.y == 0 { Shown { z: last, ..s } } else { s }
}

#[tactic(auto, using(std::proofs::lemmas::Bool::Decides::nat_tests), unfolding(crate::specs::Lines::adjusted))]
fn adjust(form: Form, o: Operands, s: Shown) -> Shown
    ensures { result ≡ adjusted form o s }
{
    match form {
        Form::LentCursor => with_last(o.c, s),
        _ => s,
    }
}

// The line of a command, behind the text that is there.
pub fn put_shown(
    writer: &mut Writer<'_>,
    code: u64,
    form: Form,
    memory: Memory,
    o: Operands,
    shown: Shown,
    used: u64,
    places: &[u64],
    bytes: &[u8],
)
    requires places_in_bounds { writer.old.end + 167 + 17 * length places.now ≤ length writer.old.out.now }
    requires bytes_in_bounds { writer.old.end + 169 + 2 * length bytes.now ≤ length writer.old.out.now }
    ensures { Writes (line_text code form memory (adjusted form o shown) used places.now bytes.now) writer.old writer.new }
{
    let s = adjust(form, o, shown);
    writer.put_head(code, s.refusal, s.word, used);
    let f = forms_of(form, s.refusal, s.x);
    put_extra(writer, f, s);
    put_lent(writer, memory, s, places, bytes);
    writer.put_byte(b'\n');
}
