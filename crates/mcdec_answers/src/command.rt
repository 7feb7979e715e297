//! The words of the command line.

ghost use Rattle.std.specs.Prelude.{◌≡◌, ◌≢◌, ◌↔◌, ◌+◌, ◌<◌, ◌≤◌, ◌++◌, ◌∷◌, [], ℕ, Contains, IfOk, List, IsTrue, MatchOption, MatchResult, codes, map};
ghost use Rattle.std.specs.Fmt.{decimal};
ghost use Rattle.hex.specs.Hex.{encode_lower};
ghost use Rattle.mc_text.specs.Number.{hex};
ghost use Rattle.group_text.specs.Limits.{IsName};
ghost use Rattle.mcdec_answers.specs.Command.{AreNames, Arg, Given, IsGiven, IsMemory, IsNoCommand, arg_word, memory_name, texts};
ghost use Rattle.mcdec_answers.specs.CommandReading.{AllArgs, IsArg, IsCheck, IsDecompile, IsEval, IsLaws, IsMigrate, IsRead, IsRun, IsSelfTest, IsSimplify, IsSmt, Lacks, NoArgs, NoCheck, NoDecompile, NoEval, NoLaws, NoMigrate, NoRun, NoSelfTest, NoSimplify, NoSmt, Unless, arg_of, given_in, value_in};
ghost use Rattle.mcdec_answers.specs.declared.command.Memory.{Memory as MemoryOf};
ghost use Rattle.mcdec_answers.specs.declared.command.Unread.TheVariants.{NoMemory};
ghost use Rattle.rv_words.specs.declared.range.Range.{Range as RangeOf};

use indexmap::IndexSet;
use mc_text::{dec, hex_bytes, hexnum, is_atom};
use rv_words::{List, NoMemory, Range, Text};
use std::alloc::{AllocError, AllocFailed, Global};

/// Why the words are no command.
#[derive(Clone, Copy, Debug, PartialEq, Eq)]
pub enum Unread {
    /// They are none.
    NotACommand,
    /// There was no memory.
    NoMemory,
}

impl From<NoMemory> for Unread {
    ghost from_gives = { λ _ e. e ≡ NoMemory };

    fn from(_e: NoMemory) -> Unread {
        Unread::NoMemory
    }
}

/// A command.
#[derive(Drop)]
pub enum Command<'a> {
    Eval(Eval<'a>),
    Run(Run<'a>),
    Check(Check<'a>),
    Decompile(Decompile<'a>),
    SelfTest(SelfTest),
    Simplify(Simplify<'a>),
    Laws(Laws<'a>),
    Smt(Smt<'a>),
    Migrate(Migrate<'a>),
}

/// `eval PROOF NAME TURNS ARG*`
#[derive(Drop)]
pub struct Eval<'a> {
    pub proof: &'a str,
    pub name: &'a [u8],
    pub turns: u64,
    pub given: Registers,
    pub memory: List<Range>,
    /// Bytes of the second memory.
    pub stack: List<Range>,
}

/// `run ELF START UNTIL STEPS ARG*`
#[derive(Drop)]
pub struct Run<'a> {
    pub elf: &'a str,
    pub start: &'a [u8],
    pub until: u64,
    pub steps: u64,
    pub given: Registers,
    pub memory: List<Range>,
}

/// `check ELF PROOF`
#[derive(Clone, Copy, Debug)]
pub struct Check<'a> {
    pub elf: &'a str,
    pub proof: &'a str,
}

/// How functions are decompiled.
#[derive(Clone, Copy, Debug, PartialEq, Eq)]
pub enum Form {
    /// Each function by itself.
    Alone,
    /// Each function with those that it calls.
    Linked,
    /// Each function by itself, with its stack as a second memory.
    Split,
}

/// `decompile ELF OUT NAME+` · `link ELF OUT NAME+` · `split ELF OUT NAME+`
#[derive(Drop)]
pub struct Decompile<'a> {
    pub form: Form,
    pub elf: &'a str,
    pub out: &'a str,
    pub names: List<Text>,
}

/// `selftest NUMBER SIZE`
#[derive(Clone, Copy, Debug)]
pub struct SelfTest {
    pub number: u64,
    pub size: u32,
}

/// `simplify PROOF NAME OUT`
#[derive(Clone, Copy, Debug)]
pub struct Simplify<'a> {
    pub proof: &'a str,
    pub name: &'a [u8],
    pub out: &'a str,
}

/// `laws PROOF CERT`
#[derive(Clone, Copy, Debug)]
pub struct Laws<'a> {
    pub proof: &'a str,
    pub cert: &'a str,
}

/// `smt PROOF NAME DEF OUT`
#[derive(Clone, Copy, Debug)]
pub struct Smt<'a> {
    pub proof: &'a str,
    pub name: &'a [u8],
    pub def: u64,
    pub out: &'a str,
}

/// `migrate ELF PROOF OUT`
#[derive(Clone, Copy, Debug)]
pub struct Migrate<'a> {
    pub elf: &'a str,
    pub proof: &'a str,
    pub out: &'a str,
}

/// A word behind the others.
#[derive(Drop)]
pub enum Argument {
    /// The number of a register, and its value.
    Value(u8, u64),
    /// Bytes of a memory.
    Bytes(Memory, Range),
}

/// One of a function's memories.
#[derive(Clone, Copy, Debug, PartialEq, Eq)]
pub enum Memory {
    First,
    /// That of the stack, where a function has two.
    Second,
}

impl Memory {
    /// Its name in words and lines.
    pub fn name(self) -> &'static str
        ensures { result.now ≡ memory_name self }
    {
        match self {
            Memory::First => "mem",
            Memory::Second => "stk",
        }
    }
}

/// The values that the words give to registers, by their numbers.
#[derive(Drop)]
pub struct Registers {
    pub values: [Option<u64>; 32],
}

impl Registers {
    /// The value that the register is given.
    pub fn given(&self, register: u8) -> Option<u64>
        ensures { result ≡ given_in self.now.values register }
    {
        match self.values.get(register as usize) {
            Some(value) => *value,
            None => None,
        }
    }

    /// The value of the register; 0 where it is given none.
    pub fn value(&self, register: u8) -> u64
        ensures { result ≡ value_in self.now.values register }
    {
        match self.values.get(register as usize) {
            Some(Some(value)) => *value,
            _ => 0,
        }
    }
}

/// The command that the words are.
pub fn read_words(alloc: Global, words: &[String]) -> Result<Command<'_>, Unread>
    ensures { MatchResult result (λ c. IsRead (texts words.now) c) (λ e.
        Unless (IsNoCommand (texts words.now)) e) }
{
    let [first, rest @ ..] = words else {
        return Err(Unread::NotACommand);
    };
    if first.as_str() == "eval" {
        return Ok(Command::Eval(read_eval(alloc, rest)?));
    }
    if first.as_str() == "run" {
        return Ok(Command::Run(read_run(alloc, rest)?));
    }
    if first.as_str() == "check" {
        return Ok(Command::Check(read_check(rest)?));
    }
    if first.as_str() == "decompile" {
        return Ok(Command::Decompile(read_decompile(alloc, Form::Alone, rest)?));
    }
    if first.as_str() == "selftest" {
        return Ok(Command::SelfTest(read_self_test(rest)?));
    }
    if first.as_str() == "simplify" {
        return Ok(Command::Simplify(read_simplify(rest)?));
    }
    if first.as_str() == "laws" {
        return Ok(Command::Laws(read_laws(rest)?));
    }
    if first.as_str() == "smt" {
        return Ok(Command::Smt(read_smt(rest)?));
    }
    if first.as_str() == "link" {
        return Ok(Command::Decompile(read_decompile(alloc, Form::Linked, rest)?));
    }
    if first.as_str() == "split" {
        return Ok(Command::Decompile(read_decompile(alloc, Form::Split, rest)?));
    }
    if first.as_str() == "migrate" {
        return Ok(Command::Migrate(read_migrate(rest)?));
    }
    Err(Unread::NotACommand)
}

/// The words behind `eval`.
fn read_eval(alloc: Global, words: &[String]) -> Result<Eval<'_>, Unread>
    ensures { MatchResult result (λ e. IsEval (texts words.now) e) (λ e.
        Unless (NoEval (texts words.now)) e) }
{
    let [proof, name, turns, arguments @ ..] = words else {
        return Err(Unread::NotACommand);
    };
    if proof.is_empty() || !is_name(name.as_bytes()) {
        return Err(Unread::NotACommand);
    }
    let turns = match dec(turns.as_bytes()) {
        Some(turns) => turns,
        None => return Err(Unread::NotACommand),
    };
    let (given, memory, stack) = read_arguments(alloc, arguments)?;
    Ok(Eval {
        proof: proof.as_str(),
        name: name.as_bytes(),
        turns,
        given,
        memory,
        stack,
    })
}

/// The words behind `run`.
fn read_run(alloc: Global, words: &[String]) -> Result<Run<'_>, Unread>
    ensures { MatchResult result (λ r. IsRun (texts words.now) r) (λ e.
        Unless (NoRun (texts words.now)) e) }
{
    let [elf, start, until, steps, arguments @ ..] = words else {
        return Err(Unread::NotACommand);
    };
    if elf.is_empty() || !is_name(start.as_bytes()) {
        return Err(Unread::NotACommand);
    }
    let until = match hexnum(until.as_bytes()) {
        Some(until) => until,
        None => return Err(Unread::NotACommand),
    };
    let steps = match dec(steps.as_bytes()) {
        Some(steps) => steps,
        None => return Err(Unread::NotACommand),
    };
    let (given, memory, stack) = read_arguments(alloc, arguments)?;
    if !stack.is_empty() {
        return Err(Unread::NotACommand);
    }
    Ok(Run {
        elf: elf.as_str(),
        start: start.as_bytes(),
        until,
        steps,
        given,
        memory,
    })
}

/// The words behind `check`.
fn read_check(words: &[String]) -> Result<Check<'_>, Unread>
    ensures { MatchResult result (λ c. IsCheck (texts words.now) c) (λ e.
        Unless (NoCheck (texts words.now)) e) }
{
    let [elf, proof] = words else {
        return Err(Unread::NotACommand);
    };
    if elf.is_empty() || proof.is_empty() {
        return Err(Unread::NotACommand);
    }
    Ok(Check {
        elf: elf.as_str(),
        proof: proof.as_str(),
    })
}

/// The words behind `decompile`, `link` or `split`.
fn read_decompile(alloc: Global, form: Form, words: &[String]) -> Result<Decompile<'_>, Unread>
    ensures { MatchResult result (λ d. (d.form ≡ form) × IsDecompile (texts words.now) d)
        (λ e. Unless (NoDecompile form (texts words.now)) e) }
{
    let [elf, out, names @ ..] = words else {
        return Err(Unread::NotACommand);
    };
    if elf.is_empty() || out.is_empty() || elf.as_str() == out.as_str() || names.is_empty() {
        return Err(Unread::NotACommand);
    }
    let names = read_names(alloc, names)?;
    Ok(Decompile {
        form,
        elf: elf.as_str(),
        out: out.as_str(),
        names,
    })
}

/// The words behind `selftest`.
fn read_self_test(words: &[String]) -> Result<SelfTest, Unread>
    ensures { MatchResult result (λ t. IsSelfTest (texts words.now) t) (λ e.
        Unless (NoSelfTest (texts words.now)) e) }
{
    let [number, size] = words else {
        return Err(Unread::NotACommand);
    };
    let Some(number) = dec(number.as_bytes()) else {
        return Err(Unread::NotACommand);
    };
    let Some(size) = read_size(size.as_bytes()) else {
        return Err(Unread::NotACommand);
    };
    Ok(SelfTest { number, size })
}

/// The words behind `simplify`.
fn read_simplify(words: &[String]) -> Result<Simplify<'_>, Unread>
    ensures { MatchResult result (λ s. IsSimplify (texts words.now) s) (λ e.
        Unless (NoSimplify (texts words.now)) e) }
{
    let [proof, name, out] = words else {
        return Err(Unread::NotACommand);
    };
    if proof.is_empty() || !is_name(name.as_bytes()) {
        return Err(Unread::NotACommand);
    }
    if out.is_empty() || proof.as_str() == out.as_str() {
        return Err(Unread::NotACommand);
    }
    Ok(Simplify {
        proof: proof.as_str(),
        name: name.as_bytes(),
        out: out.as_str(),
    })
}

/// The words behind `laws`.
fn read_laws(words: &[String]) -> Result<Laws<'_>, Unread>
    ensures { MatchResult result (λ l. IsLaws (texts words.now) l) (λ e.
        Unless (NoLaws (texts words.now)) e) }
{
    let [proof, cert] = words else {
        return Err(Unread::NotACommand);
    };
    if proof.is_empty() || cert.is_empty() {
        return Err(Unread::NotACommand);
    }
    Ok(Laws {
        proof: proof.as_str(),
        cert: cert.as_str(),
    })
}

/// The words behind `smt`.
fn read_smt(words: &[String]) -> Result<Smt<'_>, Unread>
    ensures { MatchResult result (λ s. IsSmt (texts words.now) s) (λ e.
        Unless (NoSmt (texts words.now)) e) }
{
    let [proof, name, def, out] = words else {
        return Err(Unread::NotACommand);
    };
    if proof.is_empty() || !is_name(name.as_bytes()) {
        return Err(Unread::NotACommand);
    }
    let Some(def) = dec(def.as_bytes()) else {
        return Err(Unread::NotACommand);
    };
    if out.is_empty() || proof.as_str() == out.as_str() {
        return Err(Unread::NotACommand);
    }
    Ok(Smt {
        proof: proof.as_str(),
        name: name.as_bytes(),
        def,
        out: out.as_str(),
    })
}

/// The words behind `migrate`.
fn read_migrate(words: &[String]) -> Result<Migrate<'_>, Unread>
    ensures { MatchResult result (λ m. IsMigrate (texts words.now) m) (λ e.
        Unless (NoMigrate (texts words.now)) e) }
{
    let [elf, proof, out] = words else {
        return Err(Unread::NotACommand);
    };
    if elf.is_empty() || proof.is_empty() || out.is_empty() {
        return Err(Unread::NotACommand);
    }
    if elf.as_str() == out.as_str() || proof.as_str() == out.as_str() {
        return Err(Unread::NotACommand);
    }
    Ok(Migrate {
        elf: elf.as_str(),
        proof: proof.as_str(),
        out: out.as_str(),
    })
}

/// The greatest size of a program that is drawn. It then has at most 1,001 instructions.
const PROGRAM_SIZE_LIMIT: u64 = 600;

/// The size of a program.
fn read_size(word: &[u8]) -> Option<u32>
    ensures { MatchOption result ((n : ℕ) → 1 ≤ n → n ≤ 600 → word.now ≢ decimal n)
        (λ n. (1 ≤ n) × (n ≤ 600) × (word.now ≡ decimal n)) }
{
    let size = dec(word)?;
    if 1 <= size && size <= PROGRAM_SIZE_LIMIT {
        Some(size as u32)
    } else {
        None
    }
}

/// Names, none of which stands twice.
fn read_names(alloc: Global, words: &[String]) -> Result<List<Text>, Unread>
    ensures { MatchResult result (λ names. (names ≡ texts words.now) × AreNames names)
        (λ e. Unless (AreNames (texts words.now) → ⊥) e) }
{
    let mut seen = IndexSet::new(alloc);
    let mut names = List::new(alloc);
    for word in words {
        if !is_name(word.as_bytes()) {
            return Err(Unread::NotACommand);
        }
        if !is_new(&mut seen, word.as_str())? {
            return Err(Unread::NotACommand);
        }
        names.push(Text::from_slice(alloc, word.as_bytes())?)?;
    }
    Ok(names)
}

/// Whether a name isn't among those that were seen. It is from then on.
fn is_new<'a>(seen: &mut IndexSet<&'a str>, name: &'a str) -> Result<bool, NoMemory>
    ensures new { IfOk result (λ new.
        IsTrue new ↔ (Contains (map (λ k. k.now) seen.old.keys) name.now → ⊥)) }
    ensures seen { IfOk result (λ new.
        IsTrue new
        → map (λ k. k.now) seen.new.keys ≡ map (λ k. k.now) seen.old.keys ++ name.now ∷ []) }
{
    Ok(seen.insert(name)?)
}

/// Whether the bytes are a name.
fn is_name(bytes: &[u8]) -> bool
    ensures { IsTrue result ↔ IsName bytes.now }
{
    bytes.len() <= 4096 && is_atom(bytes)
}

/// The values of registers, and the bytes of each memory.
fn read_arguments(
    alloc: Global,
    words: &[String],
) -> Result<(Registers, List<Range>, List<Range>), Unread>
    ensures { MatchResult result (λ x. AllArgs (texts words.now) x.0.values x.1 x.2)
        (λ e. Unless (NoArgs (texts words.now)) e) }
{
    let mut values = [None; 32];
    let mut memory = List::new(alloc);
    let mut stack = List::new(alloc);
    for word in words {
        match read_argument(alloc, word.as_str())? {
            Argument::Value(register, value) => {
                if values[register as usize].is_some() {
                    return Err(Unread::NotACommand);
                }
                values[register as usize] = Some(value);
            }
            Argument::Bytes(Memory::First, range) => memory.push(range)?,
            Argument::Bytes(Memory::Second, range) => stack.push(range)?,
        }
    }
    Ok((Registers { values }, memory, stack))
}

/// A word behind the others.
fn read_argument(alloc: Global, word: &str) -> Result<Argument, Unread>
    ensures { MatchResult result (λ a. IsArg (arg_of a) × (word.now ≡ arg_word (arg_of a)))
        (λ e. Unless ((a : Arg) → IsArg a → word.now ≢ arg_word a) e) }
{
    let Some((name, value)) = at_first(word, '=') else {
        return Err(Unread::NotACommand);
    };
    if let Some(memory) = memory_named(name) {
        return Ok(Argument::Bytes(memory, read_memory(alloc, value)?));
    }
    match read_register(name.as_bytes(), value.as_bytes()) {
        Some((register, value)) => Ok(Argument::Value(register, value)),
        None => Err(Unread::NotACommand),
    }
}

/// A register's number and its value.
fn read_register(name: &[u8], value: &[u8]) -> Option<(u8, u64)>
    ensures { MatchOption result
        ((g : Given)
        → IsGiven g
        → name.now ≡ codes "x" ++ decimal g.register
        → value.now ≢ hex g.value)
        (λ x.
        IsGiven (record { register = x.0; value = x.1 })
        × (name.now ≡ codes "x" ++ decimal x.0)
        × (value.now ≡ hex x.1)) }
{
    let [b'x', number @ ..] = name else {
        return None;
    };
    let register = dec(number)?;
    let value = hexnum(value)?;
    if 1 <= register && register <= 31 {
        Some((register as u8, value))
    } else {
        None
    }
}

/// The memory of that name.
fn memory_named(name: &str) -> Option<Memory>
    ensures { MatchOption result ((m : MemoryOf) → name.now ≢ memory_name m)
        (λ m. name.now ≡ memory_name m) }
{
    if name == Memory::First.name() {
        return Some(Memory::First);
    }
    if name == Memory::Second.name() {
        return Some(Memory::Second);
    }
    None
}

/// Bytes of memory.
fn read_memory(alloc: Global, value: &str) -> Result<Range, Unread>
    ensures { MatchResult result
        (λ r. IsMemory r × (value.now ≡ hex r.at ++ codes ":" ++ encode_lower r.bytes))
        (λ e.
        Unless
        ((r : RangeOf) → IsMemory r → value.now ≢ hex r.at ++ codes ":" ++ encode_lower r.bytes)
        e) }
{
    let Some((address, digits)) = at_first(value, ':') else {
        return Err(Unread::NotACommand);
    };
    let Some(at) = hexnum(address.as_bytes()) else {
        return Err(Unread::NotACommand);
    };
    let Some(bytes) = hex_bytes(alloc, digits.as_bytes())? else {
        return Err(Unread::NotACommand);
    };
    if u128::from(at) + bytes.len() as u128 <= 1 << 64 {
        Ok(Range { at, bytes })
    } else {
        Err(Unread::NotACommand)
    }
}

/// What stands before the first such character, and what stands behind it.
fn at_first(text: &str, mark: char) -> Option<(&str, &str)>
    requires { mark < 128 }
    ensures { MatchOption result ((front back : List ℕ) → text.now ≢ front ++ mark ∷ back)
        (λ x. (text.now ≡ x.0.now ++ mark ∷ x.1.now) × Lacks mark x.0.now) }
{
    text.split_once(mark)
}
