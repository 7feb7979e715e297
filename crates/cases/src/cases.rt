//! The lines of the input, one by one.

use crate::command::{Failures, run, words_of};
use crate::files::{Files, elf_of};
use crate::page::{Stars, add_head, add_lines, add_picked, add_text, count_proof_lines, front_of};
use anyhow::{Result, bail};
use std::alloc::Global;

/// The files of a case, and what is to happen to its next command.
#[derive(Drop)]
pub struct Cases {
    alloc: Global,
    files: Files,
    open: Option<Open>,
    failures: Failures,
    stars: Stars,
}

/// A file whose lines are being given, how often they are to be added, with their numbers, and what
/// stands behind them.
#[derive(Drop)]
struct Open {
    name: String,
    lines: String,
    times: Option<u64>,
    behind: Vec<u8>,
}

impl Cases {
    pub fn new(alloc: Global) -> Cases {
        Cases {
            alloc,
            files: Files::new(alloc),
            open: None,
            failures: no_failures(alloc),
            stars: no_stars(alloc),
        }
    }

    /// What is printed for a line of the input.
    pub fn answer(&mut self, line: &str) -> Result<Vec<u8>> {
        let mut page = Vec::new(self.alloc);
        let (word, rest) = fields(line);
        if word == "|" {
            self.add_line(rest)?;
            return Ok(page);
        }
        self.close()?;
        if word.is_empty() || word == ">" || word.starts_with('#') || self.prepare(word, rest)? {
            return Ok(page);
        }
        page.extend_from_slice(line.as_bytes())?;
        page.push(b'\n')?;
        match word {
            "case" => self.files.begin(),
            "run" => self.run(line, &mut page)?,
            "fronts" => self.run_fronts(rest, &mut page)?,
            "spoil" => self.run_spoiled(rest, &mut page)?,
            _ => self.show(word, rest, &mut page)?,
        }
        Ok(page)
    }

    /// Carries out a line that prints nothing. Whether it is one.
    fn prepare(&mut self, word: &str, rest: &str) -> Result<bool> {
        let (name, value) = fields(rest);
        match word {
            "file" => {
                self.files.set(name, Vec::new(self.alloc))?;
                self.open(name, None, Vec::new(self.alloc))?;
            }
            "each" => self.open(name, Some(value.parse::<u64>()?), Vec::new(self.alloc))?,
            "line" => {
                let behind = self.files.part(name, value.parse::<usize>()?)?;
                self.open(name, None, behind)?;
            }
            "hex" => self.files.set(name, hex::decode(self.alloc, value)?)?,
            "elf" => self.files.set(name, elf_of(self.alloc, value)?)?,
            "copy" => self.files.set(name, self.files.copy(value)?)?,
            "long" => self.files.set_long(name, value.parse::<u64>()?)?,
            "drop" => self.files.remove(name),
            "add" => self.files.add(name, &hex::decode(self.alloc, value)?)?,
            "put" => self.put(name, value)?,
            "cut" => self.files.cut(name, value.parse::<usize>()?)?,
            "fail" => self.failures.shelf.push(call_of(rest)?)?,
            "choke" => self.failures.sink.push(call_of(rest)?)?,
            "star" => self.stars.words.push(String::from_str(self.alloc, rest)?)?,
            "count" => self.count(name)?,
            _ => return Ok(false),
        }
        Ok(true)
    }

    /// Adds the lines that follow to what the name holds, and these bytes behind them.
    fn open(&mut self, name: &str, times: Option<u64>, behind: Vec<u8>) -> Result<()> {
        self.open = Some(Open {
            name: String::from_str(self.alloc, name)?,
            lines: String::new(self.alloc),
            times,
            behind,
        });
        Ok(())
    }

    fn add_line(&mut self, line: &str) -> Result<()> {
        match &mut self.open {
            Some(open) => {
                open.lines.push_str(line)?;
                open.lines.push('\n')?;
                Ok(())
            }
            None => bail!("no file for the line {line}"),
        }
    }

    /// No further line of a file follows.
    fn close(&mut self) -> Result<()> {
        let Some(open) = self.open.take() else {
            return Ok(());
        };
        let times = open.times;
        let name = open.name.as_str();
        match times {
            Some(times) => self.add_times(name, open.lines.as_str(), times)?,
            None => self.files.add(name, open.lines.as_bytes())?,
        }
        self.files.add(name, &open.behind)
    }

    /// Adds lines so many times, with the number of each time, from 0, in the place of `{}`.
    fn add_times(&mut self, name: &str, lines: &str, times: u64) -> Result<()> {
        let mut text = String::new(self.alloc);
        for i in 0..times {
            let number = format!(in self.alloc; "{i}")?;
            text.push_str(lines.replace(self.alloc, "{}", number.as_str())?.as_str())?;
        }
        self.files.add(name, text.as_bytes())
    }

    fn put(&mut self, name: &str, value: &str) -> Result<()> {
        let (at, bytes) = fields(value);
        let bytes = hex::decode(self.alloc, bytes)?;
        self.files.put(name, at.parse::<usize>()?, &bytes)
    }

    fn count(&mut self, name: &str) -> Result<()> {
        let count = count_proof_lines(&self.files.copy(name)?);
        self.stars.last = Some(format!(in self.alloc; "{count}")?);
        Ok(())
    }

    /// Runs a command, and keeps what it wrote.
    fn run(&mut self, line: &str, page: &mut Vec<u8>) -> Result<()> {
        let words = match line.strip_prefix("run ") {
            Some(rest) => words_of(self.alloc, rest)?,
            None => Vec::new(self.alloc),
        };
        let left = run(self.alloc, &words, &self.files, &self.failures)?;
        add_lines(self.alloc, page, left.sink.written(), &self.stars)?;
        self.add_status(page, left.status)?;
        for name in &words {
            self.keep(name.as_str(), left.shelf.held(name.as_str()), page)?;
        }
        self.failures = no_failures(self.alloc);
        self.stars = no_stars(self.alloc);
        Ok(())
    }

    fn add_status(&self, page: &mut Vec<u8>, status: u8) -> Result<()> {
        let text = format!(in self.alloc; "status {status}\n")?;
        add_text(page, text.as_bytes())
    }

    /// Lets the name hold what a command left, and tells whether that is something else.
    fn keep(&mut self, name: &str, left: Option<&[u8]>, page: &mut Vec<u8>) -> Result<()> {
        match left {
            Some(bytes) if !self.files.holds(name, bytes) => {
                self.files.set(name, Vec::from_slice(self.alloc, bytes)?)?;
                let text = format!(in self.alloc; "wrote {name}\n")?;
                add_text(page, text.as_bytes())
            }
            Some(_) => Ok(()),
            None if self.files.held(name).is_some() => bail!("{name} is gone"),
            None => Ok(()),
        }
    }

    /// Runs a command over each shorter front of a file.
    fn run_fronts(&mut self, rest: &str, page: &mut Vec<u8>) -> Result<()> {
        let (name, command) = fields(rest);
        let words = words_of(self.alloc, command)?;
        let whole = self.files.copy(name)?;
        let mut last = Vec::new(self.alloc);
        for size in 0..whole.len() {
            self.files.cut(name, size)?;
            last = self.add_other(&words, size, last, page)?;
            self.files.set(name, whole.clone()?)?;
        }
        Ok(())
    }

    /// Runs a command over a file with a byte in the place of each other one.
    fn run_spoiled(&mut self, rest: &str, page: &mut Vec<u8>) -> Result<()> {
        let (name, rest) = fields(rest);
        let (byte, command) = fields(rest);
        let byte = hex::decode(self.alloc, byte)?;
        let words = words_of(self.alloc, command)?;
        let whole = self.files.copy(name)?;
        let mut last = Vec::new(self.alloc);
        for (at, old) in whole.iter().enumerate() {
            if byte.first() != Some(old) {
                self.files.put(name, at, &byte)?;
                last = self.add_other(&words, at, last, page)?;
                self.files.set(name, whole.clone()?)?;
            }
        }
        Ok(())
    }

    /// Runs a command, and adds its answer where it is another than the last one. Gives the answer.
    fn add_other(
        &mut self,
        words: &[String],
        place: usize,
        last: Vec<u8>,
        page: &mut Vec<u8>,
    ) -> Result<Vec<u8>> {
        let left = run(self.alloc, words, &self.files, &self.failures)?;
        let mut answer = Vec::new(self.alloc);
        add_text(&mut answer, left.sink.written())?;
        self.add_status(&mut answer, left.status)?;
        if answer != last {
            let text = format!(in self.alloc; "from {place}\n")?;
            add_text(page, text.as_bytes())?;
            add_text(page, &answer)?;
        }
        Ok(answer)
    }

    /// Prints something of a file.
    fn show(&mut self, word: &str, rest: &str, page: &mut Vec<u8>) -> Result<()> {
        let (name, value) = fields(rest);
        let Some(bytes) = self.files.held(name) else {
            return add_text(page, b"missing\n");
        };
        match word {
            "show" => add_text(page, bytes),
            "head" => add_head(page, bytes, value.parse::<usize>()?),
            "pick" => add_picked(self.alloc, page, bytes, value.as_bytes(), false),
            "sort" => add_picked(self.alloc, page, bytes, value.as_bytes(), true),
            "front" => self.show_front(bytes, value, page),
            _ => bail!("no line of a case: {word} {rest}"),
        }
    }

    fn show_front(&self, front: &[u8], name: &str, page: &mut Vec<u8>) -> Result<()> {
        let text = match front_of(front, &self.files.copy(name)?) {
            Some((lines, bytes)) => format!(in self.alloc; "{lines} lines {bytes} bytes\n")?,
            None => format!(in self.alloc; "no front\n")?,
        };
        add_text(page, text.as_bytes())
    }
}

/// The first word, and what stands behind it.
fn fields(text: &str) -> (&str, &str) {
    text.split_once(' ').unwrap_or((text, ""))
}

/// The number of a call, and of the bytes that it keeps.
fn call_of(text: &str) -> Result<(u64, u64)> {
    let (call, kept) = fields(text);
    Ok((call.parse::<u64>()?, kept.parse::<u64>()?))
}

fn no_failures(alloc: Global) -> Failures {
    Failures {
        shelf: Vec::new(alloc),
        sink: Vec::new(alloc),
    }
}

fn no_stars(alloc: Global) -> Stars {
    Stars {
        words: Vec::new(alloc),
        last: None,
    }
}
