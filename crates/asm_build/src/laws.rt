//! Laws of assembly and words.

ghost use Rattle.std.specs.Prelude.{◌<◌, ◌≤◌, length};
ghost use Rattle.asm_build.specs.Code.{number_code, address_code};
ghost use Rattle.asm_build.specs.Laws.{EveryLabelIsAtAWord, IsLoad, ShowsBack, ShowsTextBack};

/// The line that `show` writes of a word is read, with whatever number, and assembled to exactly this word.
pub fn law_show(_number: u32, _word: u32)
    ensures { ShowsBack _number _word }
{}

/// The lines that `show` writes of at most 16,384 words, each with a line feed, are read, with whatever number of the first
/// line, and assembled to exactly these words.
pub fn law_show_text(_number: u32, _words: &[u32])
    requires { length _words.now ≤ 16384 }
    ensures { ShowsTextBack _number _words.now }
{}

/// The words that load a number have immediates that sum to it, modulo 2^32; those of an address likewise.
pub fn law_load(_rd: u8, _number: u32)
    requires { _rd < 32 }
    ensures number { IsLoad _rd _number (number_code _rd _number) }
    ensures address { IsLoad _rd _number (address_code _rd _number) }
{}

/// Each label of a text has the address of a word, which four divides.
pub fn law_labels()
    ensures { EveryLabelIsAtAWord }
{}
