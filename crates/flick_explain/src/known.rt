//! What is known of a run, and what is said of each line that it wrote.

use crate::bindings::bind_reported;
use crate::checked::{Checked, stubs_reported};
use crate::command::Run;
use crate::files::File;
use crate::given::{Given, replies_reported};
use crate::inputs::Inputs;
use crate::lexing::{lex_reported, put_cause};
use crate::messages::detail;
use crate::names::name_reported;
use crate::refusals::Refusal;
use crate::syntax::syntax_reported;
use crate::text::shown;
use kit_base::limits::LONGEST_FILE;
use kit_base::{Line, NoMemory};
use pres::Bound;
use std::alloc::Global;

/// What is known of a run.
#[derive(Clone, Copy)]
pub struct Known<'a> {
    /// The run.
    pub run: Run<'a>,
    /// The octets of the interface file, where it is there.
    pub text: Option<&'a [u8]>,
    /// Those of the file of replies, where it is there.
    pub replies: Option<&'a [u8]>,
    /// Those of the file of stubs, where it is there.
    pub stubs: Option<&'a [u8]>,
    /// The interface file bound to the back end, where it is accepted.
    pub bound: Option<&'a Bound>,
}

impl Known<'_> {
    /// What is said of a line of standard input.
    pub fn line(
        &self,
        alloc: Global,
        line: &Line,
        inputs: &mut Inputs<'_>,
    ) -> Result<String, NoMemory> {
        match line {
            Line::Text(answer) => self.reported(alloc, answer.as_slice(), inputs),
            Line::Long => {
                inputs.next();
                Ok(String::new(alloc))
            }
            Line::End => Ok(String::new(alloc)),
        }
    }

    /// What is said of an answer.
    fn reported(
        &self,
        alloc: Global,
        answer: &[u8],
        inputs: &mut Inputs<'_>,
    ) -> Result<String, NoMemory> {
        if let [b'?', ..] = answer {
            return self.refused(alloc, answer);
        }
        if inputs.is_ahead(answer) {
            return Ok(String::new(alloc));
        }
        let line = inputs.next();
        match answer {
            [b'!', ..] => self.line_reported(alloc, answer, inputs.number(), line),
            _ => Ok(String::new(alloc)),
        }
    }

    /// What is said of a refusal of a file.
    fn refused(&self, alloc: Global, answer: &[u8]) -> Result<String, NoMemory> {
        let refusal = Refusal::of(answer);
        match (refusal.word, self.run.replies, self.run.stubs) {
            (b"replies", Some(path), _) => {
                self.replies_refused(alloc, path, answer, refusal.kind)
            }
            (b"stubs", _, Some(path)) => {
                or_unsaid(
                    alloc,
                    stubs_reported(alloc, path, refusal.kind)?,
                    path,
                    answer,
                )
            }
            _ => self.file_reported(alloc, answer),
        }
    }

    /// What is said of a refusal of the file of replies.
    fn replies_refused(
        &self,
        alloc: Global,
        path: &[u8],
        answer: &[u8],
        word: &[u8],
    ) -> Result<String, NoMemory> {
        let given = Given {
            path,
            text: self.replies,
            bound: self.bound,
        };
        or_unsaid(alloc, replies_reported(alloc, &given, word)?, path, answer)
    }

    /// What is said of a refusal of the interface file.
    fn file_reported(&self, alloc: Global, answer: &[u8]) -> Result<String, NoMemory> {
        let path = self.run.path;
        let Some(text) = self.text else {
            let path = shown(alloc, path)?;
            return Ok(format!(in alloc; "{path}: there is no such file\n")?);
        };
        if text.len() > LONGEST_FILE as usize {
            let path = shown(alloc, path)?;
            return Ok(format!(in alloc; "{path}: a file has at most 1048576 octets\n")?);
        }
        let file = File {
            front: self.run.front,
            back: self.run.back,
            path,
            text,
        };
        or_unsaid(alloc, file_detail(alloc, &file, answer)?, path, answer)
    }

    /// What is said of a refusal of a line.
    fn line_reported(
        &self,
        alloc: Global,
        answer: &[u8],
        number: usize,
        line: Option<&[u8]>,
    ) -> Result<String, NoMemory> {
        let refusal = Refusal::of(answer);
        if let Some(said) = self.stub_reported(alloc, &refusal, number)? {
            return Ok(said);
        }
        let mut out = self.line_begin(alloc, number)?;
        match (line, self.bound) {
            (Some(line), Some(bound)) => {
                out.push_str(detail(alloc, self.run.verb, bound, &refusal, line)?.as_str())?;
            }
            _ => out.push_str(shown(alloc, answer)?.as_str())?,
        }
        out.push('\n')?;
        match refusal.cause(self.run.verb) {
            Some(cause) => put_cause(&mut out, &cause)?,
            None => out.push_str("  this is not an answer of flick\n")?,
        }
        Ok(out)
    }

    /// What is said of a refusal of a stub, where the files are there.
    fn stub_reported(
        &self,
        alloc: Global,
        refusal: &Refusal<'_>,
        number: usize,
    ) -> Result<Option<String>, NoMemory> {
        match (self.run.stubs, self.stubs, self.text, self.bound) {
            (Some(path), Some(stubs), Some(text), Some(bound)) => {
                let checked = Checked {
                    run: self.run,
                    path,
                    stubs,
                    text,
                    bound,
                };
                match refusal.cause(self.run.verb) {
                    Some(cause) => checked.reported(alloc, refusal, number, &cause),
                    None => Ok(None),
                }
            }
            _ => Ok(None),
        }
    }

    /// The path and number of a line.
    fn line_begin(&self, alloc: Global, number: usize) -> Result<String, NoMemory> {
        match self.run.lines {
            Some(path) => Ok(format!(in alloc; "{}:{number}: ", shown(alloc, path)?)?),
            None => Ok(format!(in alloc; "answer {number}: ")?),
        }
    }
}

/// What is said of a refusal of a file, where the file shows it.
fn file_detail(alloc: Global, file: &File<'_>, answer: &[u8]) -> Result<Option<String>, NoMemory> {
    let refusal = Refusal::of(answer);
    match refusal.word {
        b"lex" => lex_reported(alloc, file, refusal.kind, refusal.at),
        b"syntax" => syntax_reported(alloc, file, refusal.kind),
        b"name" => name_reported(alloc, file, refusal.kind, refusal.at),
        b"bind" => bind_reported(alloc, file, refusal.kind),
        _ => Ok(None),
    }
}

/// What is said, if something is, or else that the file does not show the refusal.
fn or_unsaid(
    alloc: Global,
    reported: Option<String>,
    path: &[u8],
    answer: &[u8],
) -> Result<String, NoMemory> {
    if let Some(reported) = reported {
        return Ok(reported);
    }
    let path = shown(alloc, path)?;
    let answer = shown(alloc, answer)?;
    Ok(format!(in alloc; "{path}: nothing more is known of '{answer}'\n")?)
}
