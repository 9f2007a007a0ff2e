// The listing of a stored object as bytes: its stored form loaded into as many words as the listing program lends, and listed as the program does.
#![tactic(auto)]

ghost use Rattle.std.specs.Prelude.{◌≤◌, length};
ghost use Rattle.list_print.specs.Program.{Wrote};
ghost use Rattle.stored_list.specs.Stored.{stored_listing};

use list_print::WORDS;

// What is printed of stored bytes: the listing of their object, or the refusal of loading it.
pub fn list_stored(bytes: &[u8], text: &mut [u8]) -> usize
    requires { 482304 ≤ length text.old }
    ensures { Wrote (stored_listing bytes.now) (length text.old) result text.new }
{
    let mut blocks = [0u16; object::BLOCK_ROOM];
    let mut words = [0u16; WORDS];
    let mut marks = [0u8; WORDS];
    let mut labels = [0u32; object::LABEL_ROOM];
    let mut relocations = [0u32; object::RELOCATION_ROOM];
    let mut names = [0u8; object::NAME_ROOM];
    let answer = stored_load::load(
        bytes,
        &mut blocks,
        &mut words,
        &mut marks,
        &mut labels,
        &mut relocations,
        &mut names,
    );
    list_print::write_answer(
        answer,
        &blocks,
        &words,
        &marks,
        &labels,
        &relocations,
        &names,
        text,
    )
}
