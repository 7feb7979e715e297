//! Files by their names, and changes of them.

use crate::long_shelf::EmptyLines;
use anyhow::{Result, anyhow, bail};
use code_gen::elf_file;
use rv_words::List;
use std::alloc::Global;
use std::collections::BTreeMap;

/// What names hold: in a case, and before the first one.
#[derive(Drop)]
pub struct Files {
    alloc: Global,
    given: BTreeMap<String, Vec<u8>>,
    own: BTreeMap<String, Vec<u8>>,
    /// A name that is held without memory, where it is missing otherwise.
    long: Option<EmptyLines>,
    /// Whether there was a case.
    in_case: bool,
}

impl Files {
    pub fn new(alloc: Global) -> Files {
        Files {
            alloc,
            given: BTreeMap::new(alloc),
            own: BTreeMap::new(alloc),
            long: None,
            in_case: false,
        }
    }

    /// Begins a case.
    pub fn begin(&mut self) {
        self.own = BTreeMap::new(self.alloc);
        self.long = None;
        self.in_case = true;
    }

    pub fn held(&self, name: &str) -> Option<&Vec<u8>> {
        match self.own.get(name) {
            Some(bytes) => Some(bytes),
            None => self.given.get(name),
        }
    }

    pub fn holds(&self, name: &str, bytes: &[u8]) -> bool {
        match self.held(name) {
            Some(held) => held.as_slice() == bytes,
            None => false,
        }
    }

    /// A copy of what the name holds.
    pub fn copy(&self, name: &str) -> Result<Vec<u8>> {
        match self.held(name) {
            Some(bytes) => Ok(bytes.clone()?),
            None => bail!("no file {name}"),
        }
    }

    /// Lets the name hold the bytes.
    pub fn set(&mut self, name: &str, bytes: Vec<u8>) -> Result<()> {
        let name = String::from_str(self.alloc, name)?;
        if self.in_case {
            self.own.insert(name, bytes)?;
        } else {
            self.given.insert(name, bytes)?;
        }
        Ok(())
    }

    /// Lets a name that is missing hold so many empty lines, in place of another one that did.
    pub fn set_long(&mut self, name: &str, count: u64) -> Result<()> {
        let name = String::from_str(self.alloc, name)?;
        self.long = Some(EmptyLines { name, count });
        Ok(())
    }

    /// A copy of the name that does, and of how many lines they are.
    pub fn long(&self) -> Result<Option<EmptyLines>> {
        match &self.long {
            Some(long) => Ok(Some(EmptyLines {
                name: String::from_str(self.alloc, long.name.as_str())?,
                count: long.count,
            })),
            None => Ok(None),
        }
    }

    pub fn remove(&mut self, name: &str) {
        self.own.remove(name);
    }

    /// Adds bytes to what the name holds.
    pub fn add(&mut self, name: &str, bytes: &[u8]) -> Result<()> {
        let mut all = self.copy(name)?;
        all.extend_from_slice(bytes)?;
        self.set(name, all)
    }

    /// Writes bytes over those from an offset on.
    pub fn put(&mut self, name: &str, at: usize, bytes: &[u8]) -> Result<()> {
        let mut all = self.copy(name)?;
        for (old, new) in all.iter_mut().skip(at).zip(bytes) {
            *old = *new;
        }
        self.set(name, all)
    }

    /// Keeps so many bytes.
    pub fn cut(&mut self, name: &str, size: usize) -> Result<()> {
        let mut all = self.copy(name)?;
        all.truncate(size);
        self.set(name, all)
    }

    /// Keeps the lines before that one, and gives those behind it.
    pub fn part(&mut self, name: &str, line: usize) -> Result<Vec<u8>> {
        let all = self.copy(name)?;
        let mut front = Vec::new(self.alloc);
        let mut behind = Vec::new(self.alloc);
        for (i, text) in all.split_inclusive(is_newline).enumerate() {
            if i < line.saturating_sub(1) {
                front.extend_from_slice(text)?;
            } else if i >= line {
                behind.extend_from_slice(text)?;
            }
        }
        self.set(name, front)?;
        Ok(behind)
    }
}

pub fn is_newline(byte: &u8) -> bool {
    *byte == b'\n'
}

/// An ELF file with these instruction words at 0x10000, each eight hexadecimal digits, with `*` and
/// a number behind those that stand more than once.
pub fn elf_of(alloc: Global, words: &str) -> Result<Vec<u8>> {
    let mut code = List::new(alloc);
    for text in words.split_whitespace() {
        let (word, times) = text.split_once('*').unwrap_or((text, "1"));
        let word = u32::from_str_radix(word, 16)?;
        for _ in 0..times.parse::<u64>()? {
            code.push(word).map_err(|_| anyhow!("no memory"))?;
        }
    }
    if code.len() > 1 << 20 {
        bail!("too many words");
    }
    let file = elf_file(alloc, &code).map_err(|_| anyhow!("no memory"))?;
    Ok(Vec::from_slice(alloc, file.as_slice())?)
}
