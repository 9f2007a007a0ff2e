// The note of a label operand that does not reach its label: how far the label is, and how far the operand reaches.
#![tactic(auto)]

ghost use Rattle.std.specs.Prelude.{◌≡◌, List, ℕ, ◌+◌, ◌-◌, ◌≤◌, ◌<◌, length};
ghost use Rattle.rules.specs.Base.{ok};
ghost use Rattle.rules.specs.Words.{offset};
ghost use Rattle.rules.specs.Statements.{Stmt, labels_at, statements};
ghost use Rattle.parse_labels.specs.Names.{Between};
ghost use Rattle.parse_meaning.specs.Reading.{meant_op, Faithful};
ghost use Rattle.view_text.specs.Put.{Put};
ghost use Rattle.view_far.specs.Far.{is_orig, is_instr, address_after, first_with, where_is, aims_at, named, distance_text, reach_text, far_line, far_to, far_note};
ghost use Rattle.view_far.specs.Seeking.{name_at, tested, Tells, range_by, aimed};

use parse::Statement;
use parse_labels::NextLabel;
use parse_rows::Op;
use view_text::{put, put_byte, put_count};

// What is looked for: the instruction whose label operand begins at a place, or the statement behind a label of the name between two places.
#[derive(Clone, Copy)]
pub enum Sought {
    Operand(usize),
    Label { start: usize, end: usize },
}

fn is_orig(op: Op) -> bool
    ensures { result ≡ is_orig (meant_op op) }
{
    matches!(op, Op::Orig)
}

fn is_instr(op: Op) -> bool
    ensures { result ≡ is_instr (meant_op op) }
{
    matches!(op, Op::Instr)
}

// The address behind a statement.
fn address_after(src: &[u8], st: Statement, address: u32) -> u32
    requires { (length src.now ≤ 262144) × (st.bits < 65536) × (address < 65536) }
    ensures { (result < 65536) × ((at : ℕ) (s : Stmt) → Faithful src.now at st s → result ≡ address_after s address) }
{
    let op = st.op;
    if is_orig(op) {
        return st.bits;
    }
    let size = parse_meaning::word_len(src, st);
    (address + size) % base_capacities::ADDRESSES
}

// An instruction whose label operand begins at a place.
fn aims_at(st: Statement, place: usize) -> bool
    ensures { (src : List ℕ) (at : ℕ) (s : Stmt) → Faithful src at st s → result ≡ aims_at place s }
{
    let op = st.op;
    let instr = is_instr(op);
    instr & (0 < st.reach) & (st.label_start == place)
}

// Some label from here on has the name between two places.
fn has_label(src: &[u8], at: usize, start: usize, end: usize) -> bool
    ensures { result ≡ named (name_at src.now start end) (labels_at src.now at) }
{
    let mut i = at;
    // A loop: each label says where the next is looked for, until there is none.
    loop {
        match parse_labels::next_label(src, i) {
            NextLabel::Label {
                start: from,
                end: to,
                next,
            } => {
                let name = lex::label_text(src, from, to);
                if base_text::same_name(name, lex::label_text(src, start, end)) {
                    return true;
                }
                i = next;
            }
            NextLabel::Done => {
                return false;
            }
        }
    }
}

// The statement, looked for at a place, is the one that is looked for.
fn is_sought(src: &[u8], at: usize, st: Statement, sought: Sought) -> bool
    ensures { (s : Stmt) → Faithful src.now at st s → result ≡ tested src.now sought s }
{
    match sought {
        Sought::Operand(place) => aims_at(st, place),
        Sought::Label { start, end } => has_label(src, at, start, end),
    }
}

// The first such statement of a source whose statements are read, with its address.
fn find(src: &[u8], sought: Sought) -> Option<(Statement, u32)>
    requires { length src.now ≤ 262144 }
    ensures { (ss : List Stmt) → statements src.now ≡ ok ss → Tells src.now (first_with (tested src.now sought) 0 ss) result }
{
    let mut at = 0;
    let mut address: u32 = 0;
    // A while: each statement says where the next begins, until the source ends.
    while let Ok(Some(st)) = parse::next_statement(src, at) {
        if is_sought(src, at, st, sought) {
            return Some((st, address));
        }
        address = address_after(src, st, address);
        at = st.next;
    }
    None
}

// The first such statement of any source; none where the source is refused before its passes.
fn where_is(src: &[u8], sought: Sought) -> Option<(Statement, u32)>
    ensures { Tells src.now (where_is (tested src.now sought) src.now) result }
{
    match parse::check_source(src) {
        Ok(()) => find(src, sought),
        Err(_) => None,
    }
}

// The label's address less the address after the instruction.
fn offset_from(address: u32, label: u32) -> u32
    requires { (address < 65536) × (label < 65536) }
    ensures { (result ≡ offset label (address + 1)) × (result < 65536) }
{
    let next = address + 1;
    (label + (base_capacities::ADDRESSES - next)) % base_capacities::ADDRESSES
}

// The first offset that stands for a number below zero.
const SIGN: u32 = 0x8000;

// So many words after, or before.
fn put_distance(out: &mut [u8], at: usize, offset: u32) -> usize
    requires { offset < 65536 }
    ensures { Put out.old out.new at result (distance_text offset) }
{
    if offset < SIGN {
        let a = put_count(out, at, u64::from(offset), b"word");
        return put(out, a, b" after");
    }
    let b = put_count(
        out,
        at,
        u64::from(base_capacities::ADDRESSES - offset),
        b"word",
    );
    put(out, b, b" before")
}

// How far an operand reaches whose field has so many values.
fn put_reach(out: &mut [u8], at: usize, reach: u32) -> usize
    ensures { Put out.old out.new at result (reach_text (range_by reach)) }
{
    if reach == parse_field::OFFSET9 {
        return put(
            out,
            at,
            b"this operand reaches from 256 before it to 255 after it",
        );
    }
    put(
        out,
        at,
        b"this operand reaches from 1024 before it to 1023 after it",
    )
}

// The note of a statement's label operand, at an offset.
fn put_line(out: &mut [u8], at: usize, src: &[u8], st: Statement, offset: u32) -> usize
    requires { offset < 65536 }
    ensures { Put out.old out.new at result (far_line src.now (aimed src.now st) offset) }
{
    let a = put(out, at, b"note: ");
    let b = put(out, a, lex::label_text(src, st.label_start, st.label_end));
    let c = put(out, b, b" is ");
    let d = put_distance(out, c, offset);
    let e = put(out, d, b" the next instruction; ");
    let f = put_reach(out, e, st.reach);
    put_byte(out, f, b'\n')
}

// The note of the instruction of this statement, at an address.
fn put_from(out: &mut [u8], at: usize, src: &[u8], st: Statement, address: u32) -> usize
    requires { Between src.now st.label_start st.label_end × (address < 65536) }
    ensures { Put out.old out.new at result (far_to src.now address (aimed src.now st)) }
{
    let start = st.label_start;
    let end = st.label_end;
    match where_is(src, Sought::Label { start, end }) {
        Some((_, label)) => put_line(out, at, src, st, offset_from(address, label)),
        None => at,
    }
}

// The note of the label operand that begins at a place; nothing where there is none, or no such label.
pub fn put_far(out: &mut [u8], at: usize, src: &[u8], place: usize) -> usize
    ensures { Put out.old out.new at result (far_note src.now place) }
{
    match where_is(src, Sought::Operand(place)) {
        Some((st, address)) => put_from(out, at, src, st, address),
        None => at,
    }
}
