//! Cases. A line `=== NAME | WORDS` or `=== NAME | WORDS | FORM` begins a case, and the case's input is the lines up to the next
//! line that begins with `=== ` or `--`. Lines that begin with `--` are remarks to the reader of the file.

use crate::fault::Fault;
use crate::input::{push_escaped, push_plain};
use std::alloc::Global;
use tn_text::content::trimmed;
use tn_text::cut::cut;
use tn_text::lines::first_line;
use tn_text::words::first_word;

/// How a case's input is written, and what is shown of the answer.
#[derive(Clone, Copy, PartialEq, Eq, Debug)]
pub(crate) enum Form {
    /// The input is the lines as they are.
    Plain,
    /// In the input `\xHH` is the byte with these two digits, a backslash at the end of a line takes its line feed away, and
    /// a line `\N*TEXT` is the line TEXT, N times.
    Escaped,
    /// The lines of the answer are sorted.
    Sorted,
    /// Each front of the input is answered, from no byte to all; answers that repeat the one before are left out.
    Fronts,
}

/// One case.
#[derive(Drop)]
pub(crate) struct Case<'a> {
    /// What the case is called.
    pub(crate) name: &'a [u8],
    /// The words of the command.
    pub(crate) words: Vec<String>,
    pub(crate) form: Form,
    /// The bytes that the command reads.
    pub(crate) input: Vec<u8>,
}

/// The cases of a text, of which some are taken.
#[derive(Drop)]
pub(crate) struct Cases<'a> {
    rest: &'a [u8],
}

/// What stands behind `=== ` at the head of a case.
fn head_of(line: &[u8]) -> Option<&[u8]> {
    match line {
        [b'=', b'=', b'=', b' ', head @ ..] => Some(head),
        _ => None,
    }
}

/// Whether a line is a remark to the reader of the file.
fn is_remark(line: &[u8]) -> bool {
    matches!(line, [b'-', b'-', ..])
}

/// The words of a command.
fn words_of(alloc: Global, text: &[u8]) -> Result<Vec<String>, Fault> {
    let mut words = Vec::new(alloc);
    let mut rest = text;
    for _ in 0..=text.len() {
        let Some((word, after)) = first_word(rest) else {
            break;
        };
        let Ok(word) = String::from_utf8(Vec::from_slice(alloc, word)?) else {
            return Err(Fault::NoText);
        };
        if words.push(word).is_err() {
            return Err(Fault::Memory);
        }
        rest = after;
    }
    Ok(words)
}

/// The form that a word names.
fn form_of(word: &[u8]) -> Result<Form, Fault> {
    if word == b"escaped".as_slice() {
        Ok(Form::Escaped)
    } else if word == b"sorted".as_slice() {
        Ok(Form::Sorted)
    } else if word == b"fronts".as_slice() {
        Ok(Form::Fronts)
    } else {
        Err(Fault::NoForm)
    }
}

impl<'a> Cases<'a> {
    /// All cases of a text.
    pub(crate) fn of(text: &'a [u8]) -> Cases<'a> {
        Cases { rest: text }
    }

    /// The head of the next case.
    fn next_head(&mut self) -> Option<&'a [u8]> {
        let text = self.rest;
        for _ in 0..=text.len() {
            let (line, after) = first_line(self.rest)?;
            self.rest = after;
            if let Some(head) = head_of(line) {
                return Some(head);
            }
        }
        None
    }

    /// The input up to the next case or remark.
    fn next_input(&mut self, alloc: Global, form: Form) -> Result<Vec<u8>, Fault> {
        let mut input = Vec::new(alloc);
        let text = self.rest;
        for _ in 0..=text.len() {
            let Some((line, after)) = first_line(self.rest) else {
                break;
            };
            if head_of(line).is_some() || is_remark(line) {
                break;
            }
            match form {
                Form::Escaped => push_escaped(&mut input, line)?,
                _ => push_plain(&mut input, line)?,
            }
            self.rest = after;
        }
        Ok(input)
    }

    /// The next case, if there is one.
    pub(crate) fn next_case(&mut self, alloc: Global) -> Result<Option<Case<'a>>, Fault> {
        let Some(head) = self.next_head() else {
            return Ok(None);
        };
        let Some((name, behind)) = cut(head, b'|') else {
            return Err(Fault::NoWords);
        };
        let (words, form) = match cut(behind, b'|') {
            Some((words, form)) => (words, form_of(trimmed(form))?),
            None => (behind, Form::Plain),
        };
        let words = words_of(alloc, words)?;
        let input = self.next_input(alloc, form)?;
        Ok(Some(Case {
            name: trimmed(name),
            words,
            form,
            input,
        }))
    }
}
