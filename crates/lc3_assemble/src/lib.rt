// A source assembled into stored bytes: its object in a lent buffer as it is stored, or its refusal with its places.
#![tactic(auto)]

ghost use Rattle.std.specs.Prelude.{◌≡◌, length};
ghost use Rattle.lc3_assemble.specs.Assembled.{answered, Told};

use object_answer::Answer;

// So many stored bytes, or the answer of the refusal at its places; 51 has none.
fn answer_of(answer: Answer, written: Result<usize, u16>) -> Result<usize, Answer>
    ensures { result ≡ answered answer written }
{
    match written {
        Ok(size) => Ok(size),
        Err(number) => Err(object_answer::refusal(
            number,
            answer.start,
            answer.end,
            answer.start2,
            answer.end2,
        )),
    }
}

// Assembles a source with so many words as are lent, and stores its object in the lent bytes. The words and marks are left as assembling leaves them.
pub fn assemble_stored(
    src: &[u8],
    words: &mut [u16],
    marks: &mut [u8],
    bytes: &mut [u8],
) -> Result<usize, Answer>
    ensures { Told src.now words.old marks.old (length bytes.old) result words.new marks.new bytes.new }
{
    let mut blocks = [0u16; object::BLOCK_ROOM];
    let mut labels = [0u32; object::LABEL_ROOM];
    let mut relocations = [0u32; object::RELOCATION_ROOM];
    let mut names = [0u8; object::NAME_ROOM];
    let answer = asm::assemble(
        src,
        &mut blocks,
        words,
        marks,
        &mut labels,
        &mut relocations,
        &mut names,
    );
    let written = stored::store_made(
        answer,
        &blocks,
        words,
        marks,
        &labels,
        &relocations,
        &names,
        bytes,
    );
    answer_of(answer, written)
}
