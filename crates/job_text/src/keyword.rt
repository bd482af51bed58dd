//! The words that begin a line.

ghost use Rattle.std.specs.Prelude.{◌≡◌};
ghost use Rattle.job_text.specs.Keyword.{keyword_of, setting_in, with_setting as numbers_with};

use tn_base::shape::ShapeNumbers;

/// A number that has a default.
#[derive(Clone, Copy, PartialEq, Eq, Debug)]
pub(crate) enum Setting {
    Slots,
    Link,
    Mem,
    Fuel,
    Turn,
}

/// What a line after the shape begins with.
#[derive(Clone, Copy, PartialEq, Eq, Debug)]
pub(crate) enum Keyword {
    Number(Setting),
    Code,
    Asm,
    Fill,
    Table,
    Host,
    Graph,
}

pub(crate) fn find_keyword(word: &[u8]) -> Option<Keyword>
    ensures { result ≡ keyword_of word.now }
{
    if word == b"slots".as_slice() {
        return Some(Keyword::Number(Setting::Slots));
    }
    if word == b"link".as_slice() {
        return Some(Keyword::Number(Setting::Link));
    }
    if word == b"mem".as_slice() {
        return Some(Keyword::Number(Setting::Mem));
    }
    if word == b"fuel".as_slice() {
        return Some(Keyword::Number(Setting::Fuel));
    }
    if word == b"turn".as_slice() {
        return Some(Keyword::Number(Setting::Turn));
    }
    if word == b"code".as_slice() {
        return Some(Keyword::Code);
    }
    if word == b"asm".as_slice() {
        return Some(Keyword::Asm);
    }
    if word == b"fill".as_slice() {
        return Some(Keyword::Fill);
    }
    if word == b"table".as_slice() {
        return Some(Keyword::Table);
    }
    if word == b"host".as_slice() {
        return Some(Keyword::Host);
    }
    if word == b"graph".as_slice() {
        return Some(Keyword::Graph);
    }
    None
}

pub(crate) fn setting_of(setting: Setting, numbers: &ShapeNumbers) -> u32
    ensures { result ≡ setting_in setting numbers.now }
{
    match setting {
        Setting::Slots => numbers.slots,
        Setting::Link => numbers.link,
        Setting::Mem => numbers.mem,
        Setting::Fuel => numbers.fuel,
        Setting::Turn => numbers.turn,
    }
}

pub(crate) fn with_setting(setting: Setting, number: u32, numbers: ShapeNumbers) -> ShapeNumbers
    ensures { result ≡ numbers_with setting number numbers }
{
    match setting {
        Setting::Slots => ShapeNumbers {
            slots: number,
            ..numbers
        },
        Setting::Link => ShapeNumbers {
            link: number,
            ..numbers
        },
        Setting::Mem => ShapeNumbers {
            mem: number,
            ..numbers
        },
        Setting::Fuel => ShapeNumbers {
            fuel: number,
            ..numbers
        },
        Setting::Turn => ShapeNumbers {
            turn: number,
            ..numbers
        },
    }
}
