// The marked examples P1 to P10 of document 01, each assembled, or two of them linked, and printed; then some sources explained: an object with everything that a view shows, refusals in
// places that are easy to underline wrongly, and each kind of note.
#![tactic(auto)]

use lc3_input::STDOUT_FILENO;
use object_answer::Answer;

// How many words an example may have, and how many bytes its listing.
const WORDS: usize = 1024;

const TEXT: usize = 4096;

const P2: [u8; 61] = *b".external F\n.orig x3000\nLD R1, P\nJSRR R1\nHALT\nP .fill F\n.end\n";

const P3: [u8; 38] = *b".orig x4000\nF ADD R0, R0, #1\nRET\n.end\n";

// The line of a refusal.
fn print_refused(number: u16) {
    io::write_all(STDOUT_FILENO, b"REFUSED ");
    io::print_decimal(STDOUT_FILENO, number as u64);
    io::write_all(STDOUT_FILENO, b"\n");
}

// What a call has answered: the listing of the object that it left in these buffers, or its refusal.
fn print_answer(
    answer: Answer,
    blocks: &[u16],
    words: &[u16],
    marks: &[u8],
    labels: &[u32],
    relocations: &[u32],
    names: &[u8],
) {
    if answer.number != 0 {
        print_refused(answer.number);
        return;
    }
    let c = object_answer::counts_of(answer);
    let mut text = [0u8; TEXT];
    match list::list(
        c,
        blocks,
        words,
        marks,
        labels,
        relocations,
        names,
        &mut text,
    ) {
        Ok(n) => {
            if n <= TEXT {
                io::write_all(STDOUT_FILENO, &text[0..n]);
            }
        }
        Err(number) => print_refused(number),
    }
}

// An example's name, then its listing.
fn show(name: &[u8], src: &[u8]) {
    let mut blocks = [0u16; object::BLOCK_ROOM];
    let mut words = [0u16; WORDS];
    let mut marks = [0u8; WORDS];
    let mut labels = [0u32; object::LABEL_ROOM];
    let mut relocations = [0u32; object::RELOCATION_ROOM];
    let mut names = [0u8; object::NAME_ROOM];
    let answer = asm::assemble(
        src,
        &mut blocks,
        &mut words,
        &mut marks,
        &mut labels,
        &mut relocations,
        &mut names,
    );
    io::write_all(STDOUT_FILENO, name);
    print_answer(
        answer,
        &blocks,
        &words,
        &marks,
        &labels,
        &relocations,
        &names,
    );
}

// What is linked, then the listing of the link of two sources that assemble.
fn show_link(name: &[u8], first: &[u8], second: &[u8]) {
    let mut blocks1 = [0u16; object::BLOCK_ROOM];
    let mut words1 = [0u16; WORDS];
    let mut marks1 = [0u8; WORDS];
    let mut labels1 = [0u32; object::LABEL_ROOM];
    let mut relocations1 = [0u32; object::RELOCATION_ROOM];
    let mut names1 = [0u8; object::NAME_ROOM];
    let mut blocks2 = [0u16; object::BLOCK_ROOM];
    let mut words2 = [0u16; WORDS];
    let mut marks2 = [0u8; WORDS];
    let mut labels2 = [0u32; object::LABEL_ROOM];
    let mut relocations2 = [0u32; object::RELOCATION_ROOM];
    let mut names2 = [0u8; object::NAME_ROOM];
    let mut blocks = [0u16; object::BLOCK_ROOM];
    let mut words = [0u16; WORDS];
    let mut marks = [0u8; WORDS];
    let mut labels = [0u32; object::LABEL_ROOM];
    let mut relocations = [0u32; object::RELOCATION_ROOM];
    let mut names = [0u8; object::NAME_ROOM];
    let a = asm::assemble(
        first,
        &mut blocks1,
        &mut words1,
        &mut marks1,
        &mut labels1,
        &mut relocations1,
        &mut names1,
    );
    let b = asm::assemble(
        second,
        &mut blocks2,
        &mut words2,
        &mut marks2,
        &mut labels2,
        &mut relocations2,
        &mut names2,
    );
    let answer = link::link(
        object_answer::counts_of(a),
        &blocks1,
        &words1,
        &marks1,
        &labels1,
        &relocations1,
        &names1,
        object_answer::counts_of(b),
        &blocks2,
        &words2,
        &marks2,
        &labels2,
        &relocations2,
        &names2,
        &mut blocks,
        &mut words,
        &mut marks,
        &mut labels,
        &mut relocations,
        &mut names,
    );
    io::write_all(STDOUT_FILENO, name);
    print_answer(
        answer,
        &blocks,
        &words,
        &marks,
        &labels,
        &relocations,
        &names,
    );
}

// The examples by number. Each function has a few: the more calls one has, the dearer is each of them to check.
fn modules() {
    show(
        b"P1\n",
        b".orig x3000\nSTART LEA R0, MSG\nPUTS\nHALT\nMSG .stringz \"Hi\"\n.end\n",
    );
    show(b"P2\n", &P2);
    show(b"P3\n", &P3);
}

fn links() {
    show_link(b"P2 and P3\n", &P2, &P3);
    show_link(b"P3 and P2\n", &P3, &P2);
}

fn addresses() {
    show(b"P4\n", b"");
    show(b"P5\n", b".orig xFDFF\n.fill 0\n.end\n");
    show(b"P5\n", b".orig xFE00\n.fill 0\n.end\n");
    show(b"P6\n", b".orig xFFFF\n.fill 0\n.end\n");
    show(b"P6\n", b".orig xFFFF\n.blkw 2\n.end\n");
}

fn offsets() {
    show(
        b"P7\n",
        b".orig x3000\nLD R0, A\n.blkw 255\nA .fill 1\n.end\n",
    );
    show(
        b"P7\n",
        b".orig x3000\nLD R0, A\n.blkw 256\nA .fill 1\n.end\n",
    );
    show(b"P8\n", b".external F\n.orig x3000\nLD R0, F\n.end\n");
}

fn numbers() {
    show(b"P9\n", b".orig x3000\n.fill -32768\n.end\n");
    show(b"P9\n", b".orig x3000\n.fill -32769\n.end\n");
    show_link(b"P10\n", &P3, &P3);
}

fn main() {
    modules();
    links();
    addresses();
    offsets();
    numbers();
}
